ghost use Rattle.std.specs.Prelude.{◌≡◌, ◌<◌, [], ◌∷◌, ◌++◌, None, IfOk, OnOk, length, option_map, option_and_then, slice_get, is_some};
ghost use Rattle.std.specs.Option.{option_copied};
ghost use Rattle.std.specs.Vec.{vec_len};
ghost use Rattle.office_plain.specs.Rows.{brought_at, going_from, message_of, outcome_in, outcome_of, outcome_placed, place_of, queue_of, queued, with_place, KeepsMail};
ghost use Rattle.office_core.specs.declared.outgoing.OutKind.TheVariants as outs;

use crate::kept::Kept;
use behaviour_tree::Outcome;
use office_core::{Call, OutKind, Outgoing, Placed};
use std::alloc::AllocError;

impl Kept {
    /// The place among all calls of a call of a session.
    pub fn place(&self, session: u32, call: u32) -> Option<usize>
        ensures { result ≡ place_of self.now session call }
    {
        match self.places.get(session as usize) {
            Some(places) => places.get(call as usize).copied(),
            None => None,
        }
    }

    /// The place of the oldest call of a kind that goes out and that nobody fetched yet.
    pub fn first_outgoing(&self, kind: OutKind) -> Option<usize>
        ensures { result ≡ slice_get (queue_of self.now kind) 0 }
    {
        match kind {
            OutKind::Console => self.console.first(),
            OutKind::Remote => self.remote.first(),
        }
    }

    /// The call of a place as it goes out.
    pub fn outgoing(&self, place: usize) -> Result<Option<Outgoing>, AllocError>
        ensures { IfOk result (λ out. out ≡ going_from self.now place) }
    {
        let Some(call) = self.calls.get(place) else {
            return Ok(None);
        };
        let Some(row) = self.sessions.get(call.session as usize) else {
            return Ok(None);
        };
        Ok(Some(Outgoing {
            session: call.session,
            service: row.service,
            call: call.number,
            port: call.port,
            op: call.op,
            value: call.value.copied()?,
            wants: call.wants,
        }))
    }

    /// The outcome of a call of a session, once it has one.
    pub fn outcome(&self, session: u32, call: u32) -> Result<Option<Outcome>, AllocError>
        ensures { IfOk result (λ o. o ≡ outcome_of self.now session call) }
    {
        match self.place(session, call) {
            Some(place) => self.outcome_at(place),
            None => Ok(None),
        }
    }

    /// The outcome of the call of a place, once it has one.
    fn outcome_at(&self, place: usize) -> Result<Option<Outcome>, AllocError>
        ensures { IfOk result (λ o. o ≡ outcome_in self.now place) }
    {
        let Some(call) = self.calls.get(place) else {
            return Ok(None);
        };
        match call.placed {
            Placed::Refused(reason) => Ok(Some(Outcome::Refused(reason))),
            Placed::At(message) => copy_of(self.book.outcome(message)),
            Placed::Out => copy_of(self.brought(place)),
        }
    }

    /// Whether a call of a session has an outcome.
    pub fn has_outcome(&self, session: u32, call: u32) -> bool
        ensures { result ≡ is_some (outcome_of self.now session call) }
    {
        let Some(place) = self.place(session, call) else {
            return false;
        };
        let Some(call) = self.calls.get(place) else {
            return false;
        };
        match call.placed {
            Placed::Refused(_) => true,
            Placed::At(message) => self.book.outcome(message).is_some(),
            Placed::Out => self.brought(place).is_some(),
        }
    }

    /// The message that a call of a session became, where it went to a service of the program.
    pub fn message_of(&self, session: u32, call: u32) -> Option<u32>
        ensures { result ≡ message_of self.now session call }
    {
        let place = self.place(session, call)?;
        match self.calls.get(place)?.placed {
            Placed::At(message) => Some(message),
            Placed::Refused(_) | Placed::Out => None,
        }
    }

    /// Notes a call that a session sent; where it goes out, to the console or elsewhere, it waits to be fetched.
    pub fn note_call(&mut self, call: Call, kind: OutKind) -> Result<(), AllocError>
        requires { call.session < vec_len self.old.places }
        ensures calls { OnOk result (self.new.calls ≡ self.old.calls ++ call ∷ []) }
        ensures outcomes { OnOk result (self.new.outcomes ≡ self.old.outcomes ++ None ∷ []) }
        ensures places { OnOk result (self.new.places.items
            ≡ with_place call.session (length self.old.calls) self.old.places.items) }
        ensures console { OnOk result (self.new.console ≡ self.old.console
            ++ queued outs.Console call kind (length self.old.calls)) }
        ensures remote { OnOk result (self.new.remote ≡ self.old.remote
            ++ queued outs.Remote call kind (length self.old.calls)) }
        ensures others { KeepsMail self.old self.new }
    {
        let place = self.calls.len();
        self.places[call.session as usize].push(place)?;
        self.queue(&call, kind, place)?;
        self.outcomes.push(None)?;
        self.calls.push(call)
    }

    /// Puts the place of a call that goes out behind all others of its kind.
    fn queue(&mut self, call: &Call, kind: OutKind, place: usize) -> Result<(), AllocError>
        ensures console { OnOk result (self.new.console ≡ self.old.console
            ++ queued outs.Console call.now kind place) }
        ensures remote { OnOk result (self.new.remote ≡ self.old.remote ++ queued outs.Remote call.now kind place) }
        ensures others { self.new ≡ record self.old { console = self.new.console; remote = self.new.remote } }
    {
        match (call.placed, kind) {
            (Placed::Out, OutKind::Console) => self.console.push(place),
            (Placed::Out, OutKind::Remote) => self.remote.push(place),
            (Placed::At(_) | Placed::Refused(_), _) => Ok(()),
        }
    }

    /// What was brought for the call of a place.
    fn brought(&self, place: usize) -> Option<&Outcome>
        ensures { option_copied result ≡ brought_at self.now.outcomes place }
    {
        match self.outcomes.get(place) {
            Some(Some(outcome)) => Some(outcome),
            Some(None) | None => None,
        }
    }
}

/// A copy of an outcome, where there is one.
fn copy_of(outcome: Option<&Outcome>) -> Result<Option<Outcome>, AllocError>
    ensures { IfOk result (λ o. o ≡ option_copied outcome.entry) }
{
    match outcome {
        Some(outcome) => Ok(Some(outcome.copied()?)),
        None => Ok(None),
    }
}
