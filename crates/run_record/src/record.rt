use behaviour_tree::Events;
use jolie_trees::Bytes;
use office_core::History;
use sqlite_items::Items;

/// The bytes that came in and went out: of all lines, or of a connection.
#[derive(Drop)]
pub struct Traffic {
    pub read: Bytes,
    pub written: Bytes,
}

/// What a run did: the text of its program, the calls of the office, the events of each session by its number, and the
/// traffic.
#[derive(Drop)]
pub struct Record {
    pub program: Bytes,
    pub history: History,
    pub sessions: Items<Events>,
    pub traffic: Items<Traffic>,
}
