//! What is asked of calls of sessions.

ghost use Rattle.std.specs.Prelude.{◌≡◌, not, ◌&&◌, IfOk, is_some, option_and_then, slice_get};
ghost use Rattle.std.specs.Option.{option_copied};
ghost use Rattle.office_core.specs.Calls as spec;
ghost use Rattle.office_core.specs.Legal as legal;
ghost use Rattle.office_plain.specs.Rows.{place_of};
ghost use Rattle.test_conditions.specs.Told as told;
ghost use Rattle.office_plain.specs.View.{past_in};

use office_core::Call;
use office_plain::{Kept, Office, numbered};
use std::alloc::AllocError;
use test_history::{answer_was_taken, was_brought, was_fetched};

/// The number of the next call of a session.
pub fn next_call(office: &Office, session: u32) -> Result<u32, AllocError>
    ensures { IfOk result (λ n. n ≡ spec.next_call (past_in office.now) session) }
{
    office.ready()?;
    numbered(call_count(office.kept(), session))
}

/// Whether a session wants the answer of its call, and did not take it.
pub fn is_wanted(office: &Office, session: u32, call: u32) -> Result<bool, AllocError>
    ensures { IfOk result (λ b. b ≡ legal.is_wanted (past_in office.now) session call) }
{
    office.ready()?;
    let Some(sent) = sent(office.kept(), session, call) else {
        return Ok(false);
    };
    let taken = answer_was_taken(office.history(), session, call);
    Ok(both(!taken, sent.wants))
}

/// Whether an actor fetched a call of a session, and nobody brought its outcome yet.
pub fn is_fetched(office: &Office, actor: u32, session: u32, call: u32) -> Result<bool, AllocError>
    ensures { IfOk result (λ b. b ≡ legal.is_fetched (past_in office.now) actor session call) }
{
    office.ready()?;
    let history = office.history();
    let made = is_sent(office.kept(), session, call);
    let fetched = was_fetched(history, actor, session, call);
    let brought = was_brought(history, session, call);
    Ok(is_away(made, fetched, brought))
}

/// How many calls a session sent.
fn call_count(kept: &Kept, session: u32) -> usize
    ensures { result ≡ told.count_by (slice_get kept.now.places.items session) }
{
    match kept.places.get(session as usize) {
        Some(places) => places.len(),
        None => 0,
    }
}

/// Whether a session sent a call.
fn is_sent(kept: &Kept, session: u32, call: u32) -> bool
    ensures { result ≡ is_some (option_and_then (slice_get kept.now.calls) (place_of kept.now session call)) }
{
    sent(kept, session, call).is_some()
}

/// A call that a session sent.
fn sent(kept: &Kept, session: u32, call: u32) -> Option<&Call>
    ensures { option_copied result ≡ option_and_then (slice_get kept.now.calls) (place_of kept.now session call) }
{
    match kept.place(session, call) {
        Some(place) => kept.calls.get(place),
        None => None,
    }
}

/// Whether both hold.
pub(crate) fn both(a: bool, b: bool) -> bool
    ensures { result ≡ (a && b) }
{
    a && b
}

/// Whether a call is away: it was made and fetched, and its outcome was not brought.
fn is_away(made: bool, fetched: bool, brought: bool) -> bool
    ensures { result ≡ (made && (fetched && not brought)) }
{
    made && fetched && !brought
}
