//! Events as words.

use behaviour_tree::{Event, Kind};
use jolie_trees::Text;
use std::alloc::{AllocError, Global};

/// The strand of an event, its kind, the message, call or way, the branch or scope, and the fault: scopes and faults by
/// their names, and numbers where the kind has none of these.
pub fn event_words(alloc: Global, event: &Event, names: &[Text]) -> Result<String, AllocError> {
    let Event {
        strand,
        kind,
        number,
        place,
        fault,
    } = *event;
    let place = if has_scope(kind) {
        name_of(alloc, names, place)?
    } else {
        place.to_string(alloc)?
    };
    let fault = if has_fault(kind, number) {
        name_of(alloc, names, fault)?
    } else {
        fault.to_string(alloc)?
    };
    format!(in alloc; "{strand} {kind:?} {number} {place} {fault}")
}

fn has_scope(kind: Kind) -> bool {
    matches!(
        kind,
        Kind::Raise | Kind::Handle | Kind::EndScope | Kind::Compensate
    )
}

/// Whether an event of a kind is about a fault. A scope that is terminated handles none.
fn has_fault(kind: Kind, number: u32) -> bool {
    match kind {
        Kind::Raise => true,
        Kind::Handle => number == 0,
        _ => false,
    }
}

/// The name at a place of the program's names, or the place where there is none.
fn name_of(alloc: Global, names: &[Text], place: u32) -> Result<String, AllocError> {
    match names.get(place as usize) {
        Some(name) => String::from_str(alloc, name.as_str()),
        None => place.to_string(alloc),
    }
}
