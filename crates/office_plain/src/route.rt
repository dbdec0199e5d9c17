//! Where a message goes: the first case that holds.

ghost use Rattle.std.specs.Prelude.{◌≡◌, ◌<◌, true, false, None, IfOk, IfSome, option_and_then};
ghost use Rattle.std.specs.List.{position_from};
ghost use Rattle.behaviour_tree.specs.PartsView.{set_view};
ghost use Rattle.correlation.specs.Sessions.{holder};
ghost use Rattle.correlation.specs.View.{sessions_of};
ghost use Rattle.office_core.specs.Route as spec;
ghost use Rattle.office_core.specs.Keys as keys;
ghost use Rattle.office_core.specs.Sessions.{has_ended};
ghost use Rattle.office_plain.specs.View.{setting_of, past_in};
ghost use Rattle.office_plain.specs.Ways.{way_view, is_of, IsAsked};
ghost use Rattle.office_plain.specs.Views.{asked_view};

use crate::asked::{Asked, asked_of};
use crate::beginnings::begins_with;
use crate::kept::SessionRow;
use crate::named::named_values;
use crate::numbers::sum;
use crate::office::Office;
use crate::sets::sets_before;
use crate::weights::weight;
use behaviour_tree::{CorrelationSet, Execution, Reason, numbered};
use correlation::{Rows, Sought};
use jolie_trees::{Root, Tree};
use message_types::conforms;
use office_core::Posted;
use std::alloc::AllocError;
use std::marker::Brand;
use std::sync::ledger::{Blank, Ledger};

/// The most messages, sessions and weight of a run, and messages that wait for one session.
const MOST_MESSAGES: usize = 65_536;

const MOST_SESSIONS: usize = 4_096;

const MOST_WEIGHT: u64 = 67_108_864;

const MOST_WAITING: u32 = 256;

/// Where a message goes: to a session that is there, to one that it starts, or nowhere.
#[derive(Clone, Copy, Debug, PartialEq, Eq)]
pub enum Way {
    Session(u32),
    New,
    Refused(Reason),
}

impl Office {
    /// Where a message goes.
    pub(crate) fn route(&self, posted: &Posted) -> Result<Way, AllocError>
        requires { self.now.spent ≡ false }
        ensures { IfOk result (λ way. way_view way ≡ spec.route (setting_of self.now) (past_in self.now) posted.now) }
    {
        if self.is_full(&posted.value) {
            return Ok(Way::Refused(Reason::RunFull));
        }
        let Some(asked) = asked_of(&self.program, posted) else {
            return Ok(Way::Refused(Reason::UnknownOperation));
        };
        if !conforms(asked.value, &asked.operation.request, &self.program) {
            return Ok(Way::Refused(Reason::NotConforming));
        }
        self.to_one(asked)
    }

    /// Whether no message of this value is accepted any more.
    fn is_full(&self, value: &Tree) -> bool
        requires { self.now.spent ≡ false }
        ensures { result ≡ spec.is_full (setting_of self.now) (past_in self.now) value.now }
    {
        self.kept.messages.len() >= MOST_MESSAGES
            || self.kept.weight.saturating_add(weight(value)) > MOST_WEIGHT
    }

    /// The session for a message that conforms.
    fn to_one(&self, asked: Asked<'_>) -> Result<Way, AllocError>
        requires ready { self.now.spent ≡ false }
        requires asked { IsAsked (setting_of self.now) (asked_view asked) }
        ensures { IfOk result (λ way. way_view way
            ≡ spec.to_one (setting_of self.now) (past_in self.now) (asked_view asked.entry)) }
    {
        match asked.service.execution {
            Execution::Single => Ok(self.to_single(asked.number)),
            Execution::Concurrent => match self.named_session(asked)? {
                Some(session) => Ok(self.into_box(session)),
                None => Ok(self.to_new(asked)),
            },
        }
    }

    /// The one session of a single service, while it lives.
    fn to_single(&self, service: u32) -> Way
        requires { self.now.spent ≡ false }
        ensures { way_view result ≡ spec.to_single (setting_of self.now) (past_in self.now)
            (keys.session_of (setting_of self.now) (past_in self.now) service (λ s. true)) }
    {
        let Some(place) = place_of(self.kept.sessions.as_slice(), service) else {
            return Way::Refused(Reason::Correlation);
        };
        let Some(row) = self.kept.sessions.get(place) else {
            return Way::Refused(Reason::Correlation);
        };
        if row.ended {
            return Way::Refused(Reason::Correlation);
        }
        self.into_box(numbered(place))
    }

    /// A session for a message that names none: a new one, where the operation starts one.
    fn to_new(&self, asked: Asked<'_>) -> Way
        requires { self.now.spent ≡ false }
        ensures { way_view result
            ≡ spec.to_named (setting_of self.now) (past_in self.now) (asked_view asked.entry) None }
    {
        if !begins_with(&asked.service.main, asked.op) {
            return Way::Refused(Reason::Correlation);
        }
        if self.kept.sessions.len() >= MOST_SESSIONS {
            return Way::Refused(Reason::RunFull);
        }
        Way::New
    }

    /// The session, unless its boxes are full.
    fn into_box(&self, session: u32) -> Way
        requires ready { self.now.spent ≡ false }
        requires lives { has_ended (past_in self.now) session ≡ false }
        ensures { way_view result ≡ spec.into_box (setting_of self.now) (past_in self.now) session }
    {
        if self.kept.boxes.len(session) >= MOST_WAITING {
            return Way::Refused(Reason::BoxFull);
        }
        Way::Session(session)
    }

    /// The live session that the values of a message name.
    fn named_session(&self, asked: Asked<'_>) -> Result<Option<u32>, AllocError>
        requires ready { self.now.spent ≡ false }
        requires asked { IsAsked (setting_of self.now) (asked_view asked) }
        ensures named { IfOk result (λ s. s
            ≡ spec.named_session (setting_of self.now) (past_in self.now) (asked_view asked.entry)) }
        ensures lives { IfOk result (λ s. IfSome s (λ n. has_ended (past_in self.now) n ≡ false)) }
    {
        let mut number = sets_before(&self.program, asked.number);
        for set in &asked.service.sets {
            let named = self.named_in(asked, set, number)?;
            if named.is_some() {
                return Ok(named);
            }
            number = sum(number, 1);
        }
        Ok(None)
    }

    /// The session that has the values of a message as its key in a set of a number.
    fn named_in(
        &self,
        asked: Asked<'_>,
        set: &CorrelationSet,
        number: u32,
    ) -> Result<Option<u32>, AllocError>
        ensures { IfOk result (λ s. s ≡ option_and_then (holder (sessions_of self.now.kept.rows) number)
            (keys.named_by (asked_view asked.entry).operation.request (asked_view asked.entry).value
            (keys.variables_from 0 (set_view set.now).variables))) }
    {
        match named_values(self.alloc, set, &asked.operation.request, asked.value)? {
            Some(values) => Ok(find_in::<Brand>(&self.kept.rows, number, &values, Blank::new(1))),
            None => Ok(None),
        }
    }
}

/// The place of the first session of a service.
fn place_of(rows: &[SessionRow], service: u32) -> Option<usize>
    ensures { result ≡ position_from (is_of service) 0 rows.now }
{
    rows.iter().position(|row| row.service == service)
}

/// The live session whose key in a set has these values, where nobody counts comparisons.
fn find_in<L: Ledger>(rows: &Rows, set: u32, values: &[Root], blank: Blank) -> Option<u32>
    requires name { blank.name ≡ L.name }
    requires parts { blank.parts ≡ L.parts }
    requires some { 0 < blank.parts }
    ensures { result ≡ holder (sessions_of rows.now) set values.now }
{
    let mut sought = Sought::<L>::new(values, blank);
    rows.find(set, &mut sought)
}
