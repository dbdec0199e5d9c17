//! What is kept at the start, and of a session that is born.

ghost use Rattle.std.specs.Prelude.{◌≡◌, ◌<◌, ◌^◌, false, true, length, map, not, take, IfOk, OnOk};
ghost use Rattle.behaviour_tree.specs.FormedSets.{is_concurrent};
ghost use Rattle.behaviour_tree.specs.PartsView.{parts_of, service_view};
ghost use Rattle.correlation.specs.Sessions.{is_born};
ghost use Rattle.correlation.specs.View.{sessions_of};
ghost use Rattle.office_core.specs.Limits.{run_of};
ghost use Rattle.office_core.specs.Past.{nothing_yet};
ghost use Rattle.office_core.specs.Sessions.{singles_from};
ghost use Rattle.office_plain.specs.Accepting.{has_session, IsEmpty, Opens, OpensFirst};
ghost use Rattle.office_plain.specs.Ties.{Ties};

use crate::kept::{Kept, SessionRow};
use crate::queue::Queue;
use crate::services::services_of;
use crate::sets::numbered_sets;
use behaviour_tree::{Execution, Program, Service, numbered};
use correlation::Rows;
use post_box::Boxes;
use reqresp_book::Book;
use sqlite_items::Items;
use std::alloc::{AllocError, Global};

/// The most sessions of a run.
const MOST_SESSIONS: usize = 4_096;

impl Kept {
    /// What is kept before the first call: the sessions of the single services.
    pub fn new(alloc: Global, program: &Program) -> Result<Kept, AllocError>
        ensures { IfOk result (λ kept. Ties (run_of (parts_of program.now)) nothing_yet kept) }
    {
        let mut kept = Kept::empty(alloc);
        kept.open_singles(alloc, program, services_of(program))?;
        Ok(kept)
    }

    fn empty(alloc: Global) -> Kept
        ensures { IsEmpty result }
    {
        Kept {
            messages: Items::new(alloc),
            weight: 0,
            sessions: Items::new(alloc),
            places: Vec::new(alloc),
            boxes: Boxes::new(alloc),
            book: Book::new(alloc),
            rows: Rows::new(alloc),
            calls: Items::new(alloc),
            outcomes: Items::new(alloc),
            console: Queue::new(alloc),
            remote: Queue::new(alloc),
        }
    }

    /// Notes the sessions of the single services, as many as a run has sessions.
    fn open_singles(
        &mut self,
        alloc: Global,
        program: &Program,
        services: &[Service],
    ) -> Result<(), AllocError>
        requires empty { IsEmpty self.old }
        requires few { length services.now < 2 ^ 32 }
        ensures { OnOk result (OpensFirst (parts_of program.now)
            (take 4096 (singles_from 0 (map service_view services.now))) self.old self.new) }
    {
        for (number, service) in services.iter().enumerate() {
            self.open_single(alloc, program, number, service)?;
        }
        Ok(())
    }

    /// Notes the session of a service, where it has one from the start.
    fn open_single(
        &mut self,
        alloc: Global,
        program: &Program,
        number: usize,
        service: &Service,
    ) -> Result<(), AllocError>
        requires unborn { is_born (sessions_of self.old.rows) (length self.old.sessions) ≡ false }
        requires number { number < 2 ^ 32 }
        ensures none { has_session (service_view service.now) (length self.old.sessions) ≡ false
            → OnOk result (self.new ≡ self.old) }
        ensures one { has_session (service_view service.now) (length self.old.sessions) ≡ true
            → OnOk result (Opens (parts_of program.now) (length self.old.sessions) number self.old self.new) }
    {
        if !self.has_session(service) {
            return Ok(());
        }
        let place = numbered(number);
        let session = numbered(self.sessions.len());
        self.open_session(alloc, program, place, session)?;
        Ok(())
    }

    /// Whether a service has the next session from the start.
    fn has_session(&self, service: &Service) -> bool
        ensures { result ≡ has_session (service_view service.now) (length self.now.sessions) }
    {
        is_single(service) && self.sessions.len() < MOST_SESSIONS
    }

    /// Notes a session that is born, and its sets.
    pub(crate) fn open_session(
        &mut self,
        alloc: Global,
        program: &Program,
        service: u32,
        session: u32,
    ) -> Result<(), AllocError>
        requires { is_born (sessions_of self.old.rows) session ≡ false }
        ensures { OnOk result (Opens (parts_of program.now) session service self.old self.new) }
    {
        let sets = numbered_sets(alloc, program, service)?;
        self.rows.birth(session, sets.as_slice())?;
        self.places.push(Items::new(alloc))?;
        self.sessions.push(SessionRow {
            service,
            adopted: false,
            ended: false,
        })?;
        Ok(())
    }
}

/// Whether a service has one session from the start.
fn is_single(service: &Service) -> bool
    ensures { result ≡ not (is_concurrent (service_view service.now).execution) }
{
    match service.execution {
        Execution::Single => true,
        Execution::Concurrent => false,
    }
}
