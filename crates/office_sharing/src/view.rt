use office_core::Entry;
use std::collections::LinkedList;

/// The calls of a pass that was joined into another. No value of it is made.
pub struct KeptCalls {
    pub number: u32,
    pub calls: LinkedList<Entry>,
}

/// What a seat at the shared office knows: the entries that it has seen, and those of a seat that was joined since; its
/// number, whether it may call, and its calls; the calls of those that were joined; whether it has the turn; whether it
/// makes seats, and how many numbers were given then. No value of it is made.
pub struct View {
    pub seen: LinkedList<Entry>,
    pub told: LinkedList<Entry>,
    pub number: u32,
    pub may_call: bool,
    pub mine: LinkedList<Entry>,
    pub kept: LinkedList<KeptCalls>,
    pub turn: bool,
    pub makes: bool,
    pub given: u32,
}
