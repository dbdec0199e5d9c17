use behaviour_tree::{Handlers, PathExpr};

/// A call that waits for its answer: its number, the port and operation that it was sent to, where the answer goes, and
/// the handlers that come with it.
#[derive(Drop)]
pub struct Call {
    pub number: u32,
    pub port: u32,
    pub op: u32,
    pub target: Option<PathExpr>,
    pub handlers: Handlers,
}
