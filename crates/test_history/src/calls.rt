//! What the history says of a call of a session.

ghost use Rattle.std.specs.Prelude.{◌≡◌};
ghost use Rattle.std.specs.List.{list_any};
ghost use Rattle.office_core.specs.Legal as legal;
ghost use Rattle.test_history.specs.Kinds as kinds;

use office_core::{Act, Entry, History};

/// Whether a session took the answer of its call.
pub fn answer_was_taken(history: &History, session: u32, call: u32) -> bool
    ensures { result ≡ list_any (legal.takes_answer session call) history.now.entries.items }
{
    history
        .entries
        .iter()
        .any(|entry| takes_answer(session, call, entry))
}

/// Whether an actor fetched a call of a session.
pub fn was_fetched(history: &History, actor: u32, session: u32, call: u32) -> bool
    ensures { result ≡ list_any (kinds.fetches_as actor session call) history.now.entries.items }
{
    history
        .entries
        .iter()
        .any(|entry| fetches_as(actor, session, call, entry))
}

/// Whether the outcome of a call of a session was brought from outside.
pub fn was_brought(history: &History, session: u32, call: u32) -> bool
    ensures { result ≡ list_any (kinds.brings_for session call) history.now.entries.items }
{
    history
        .entries
        .iter()
        .any(|entry| brings_for(session, call, entry))
}

/// Whether it is an entry by which the session took the answer of the call.
fn takes_answer(session: u32, call: u32, entry: &Entry) -> bool
    ensures { result ≡ legal.takes_answer session call entry.now }
{
    match &entry.act {
        Act::Answer { call: answered, .. } => session == entry.actor && call == *answered,
        _ => false,
    }
}

/// Whether it is an entry by which the actor fetched the call.
fn fetches_as(actor: u32, session: u32, call: u32, entry: &Entry) -> bool
    ensures { result ≡ kinds.fetches_as actor session call entry.now }
{
    match &entry.act {
        Act::Fetch {
            session: of,
            call: fetched,
        } => { actor == entry.actor && (*of == session && *fetched == call) }
        _ => false,
    }
}

/// Whether it is an entry that brings the outcome of the call.
fn brings_for(session: u32, call: u32, entry: &Entry) -> bool
    ensures { result ≡ kinds.brings_for session call entry.now }
{
    match &entry.act {
        Act::Answered {
            session: of,
            call: brought,
            ..
        } => *of == session && *brought == call,
        _ => false,
    }
}
