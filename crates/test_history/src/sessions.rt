//! What the history says of a session.

ghost use Rattle.std.specs.Prelude.{◌≡◌};
ghost use Rattle.std.specs.List.{list_any};
ghost use Rattle.office_core.specs.Sessions as spec;

use office_core::{Act, Entry, History};

/// Whether a session ended.
pub fn has_ended(history: &History, session: u32) -> bool
    ensures { result ≡ list_any (spec.ends session) history.now.entries.items }
{
    history.entries.iter().any(|entry| ends(session, entry))
}

/// Whether it is an entry by which the session ended.
fn ends(session: u32, entry: &Entry) -> bool
    ensures { result ≡ spec.ends session entry.now }
{
    match &entry.act {
        Act::End => session == entry.actor,
        _ => false,
    }
}
