use crate::history::Placed;
use jolie_trees::Tree;
use reqresp_book::Origin;

/// An accepted message: its service and operation by number, the value that lies in the box, where it came from, the
/// session that it went to, and whether it started that session. Its own number is its place among all of them.
#[derive(Drop)]
pub struct Message {
    pub service: u32,
    pub op: u32,
    pub value: Tree,
    pub origin: Origin,
    pub session: u32,
    pub starts: bool,
}

/// A call that a session sent, and where it went.
#[derive(Drop)]
pub struct Call {
    pub session: u32,
    pub number: u32,
    pub port: u32,
    pub op: u32,
    pub value: Tree,
    pub wants: bool,
    pub placed: Placed,
}
