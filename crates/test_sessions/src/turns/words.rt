//! What turns come to, as words.

use behaviour_tree::Event;
use session_turn::Turn;
use std::alloc::{AllocError, Global};

/// What a turn came to.
pub fn turn_words(alloc: Global, turn: Turn) -> Result<String, AllocError> {
    match turn {
        Turn::Did(event) => event_words(alloc, event),
        Turn::Idle => String::from_str(alloc, "idle"),
        Turn::Ended => String::from_str(alloc, "ended"),
        Turn::Spent => String::from_str(alloc, "spent"),
    }
}

/// An event: its strand, its kind, and the message, call or way.
fn event_words(alloc: Global, event: Event) -> Result<String, AllocError> {
    let Event {
        strand,
        kind,
        number,
        ..
    } = event;
    format!(in alloc; "did {strand} {kind:?} {number}")
}
