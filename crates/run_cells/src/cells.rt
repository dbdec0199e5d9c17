ghost use Rattle.std.specs.Prelude.{◌≡◌, ◌<◌, [], ◌∷◌, ◌++◌, true, IfOk, OnOk, length};
ghost use Rattle.behaviour_tree.specs.PartsView.{parts_of};
ghost use Rattle.office_core.specs.Limits.{run_of};
ghost use Rattle.run_cells.specs.RunStates.{AtWork};
ghost use Rattle.run_cells.specs.View.{run_state, state};
ghost use Rattle.run_cells.specs.Awake.{IsOn, PutsOn};
ghost use Rattle.run_cells.specs.Turns.{Adopts, fresh};

use crate::news::News;
use behaviour_tree::{Events, Program};
use office_core::Birth;
use office_plain::Office;
use session_turn::{Seating, Session};
use sqlite_items::Items;
use std::alloc::{AllocError, Global};

/// A session that was adopted, and its events.
#[derive(Drop)]
pub struct Cell<S: Session> {
    pub(crate) session: S,
    pub(crate) events: Events,
}

/// The sessions of a run by number, as far as they were adopted, and their office. A session has at most as many events
/// as the budget, and each turn takes the next pick, or 0 after the last. Rounds visit the sessions that are awake, in
/// rising order: all others sleep.
#[derive(Drop)]
pub struct Cells<'p, S: Session> {
    pub(crate) alloc: Global,
    pub(crate) program: Program,
    pub(crate) office: Office,
    pub(crate) budget: u32,
    pub(crate) cells: Vec<Cell<S>>,
    pub(crate) news: News,
    pub(crate) picks: &'p [u32],
}

impl<'p, S: Seating> Cells<'p, S> {
    /// Before the first call.
    pub fn new(
        alloc: Global,
        program: Program,
        budget: u32,
        picks: &'p [u32],
    ) -> Result<Cells<'p, S>, AllocError>
        ensures program { IfOk result (λ c. parts_of c.program ≡ parts_of program) }
        ensures begun { IfOk result (λ c. state S.Session c
            ≡ record {
              setting = run_of (parts_of program);
              budget = budget;
              history = [];
              stands = [];
              picks = picks.now;
            }) }
        ensures work { IfOk result (λ c. AtWork (run_state S.Session c)) }
    {
        let copy = program.again()?;
        let office = Office::new(alloc, copy)?;
        let cells = Vec::new(alloc);
        let news = News::new(alloc);
        Ok(Cells {
            alloc,
            program,
            office,
            budget,
            cells,
            news,
            picks,
        })
    }

    /// The program that is run.
    pub fn program(&self) -> &Program
        ensures { result.now ≡ self.now.program }
    {
        &self.program
    }

    /// Adopts the next session, if it was born.
    pub(crate) fn adopt_next(&mut self) -> Result<bool, AllocError>
        requires work { AtWork (run_state S.Session self.old) }
        ensures program { self.new.program ≡ self.old.program }
        ensures adopts { IfOk result (Adopts (state S.Session self.old) (state S.Session self.new)) }
        ensures awake { IfOk result
            (λ adopted. adopted ≡ true → IsOn self.new.news.awake (length self.old.cells.items)) }
        ensures work { OnOk result (AtWork (run_state S.Session self.new)) }
    {
        let count = self.cells.len();
        let number = count as u32;
        let born = self.office.adopt(number)?;
        let Some(birth) = born else {
            return Ok(false);
        };
        self.seat(number, birth)?;
        Ok(true)
    }

    /// Seats the session that was adopted last, at the start of its service. It is awake.
    fn seat(&mut self, number: u32, birth: Birth) -> Result<(), AllocError>
        requires known { birth.service < length (parts_of self.old.program).services }
        ensures program { self.new.program ≡ self.old.program }
        ensures office { self.new.office ≡ self.old.office }
        ensures budget { self.new.budget ≡ self.old.budget }
        ensures picks { self.new.picks.now ≡ self.old.picks.now }
        ensures stands { OnOk result ((run_state S.Session self.new).stands ≡ (run_state S.Session self.old).stands
            ++ fresh (run_of (parts_of self.old.program)) birth.service ∷ []) }
        ensures awake { OnOk result (PutsOn number self.old.news.awake self.new.news.awake) }
        ensures heard { self.new.news.heard ≡ self.old.news.heard }
        ensures senders { self.new.news.senders.items ≡ self.old.news.senders.items }
    {
        let session = S::start(self.alloc, &self.program, birth.service)?;
        let events = Items::new(self.alloc);
        let cell = Cell { session, events };
        self.cells.push(cell)?;
        self.news.awake.wake(number)
    }
}
