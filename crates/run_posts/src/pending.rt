ghost use Rattle.std.specs.Prelude.{◌≡◌, []};

use behaviour_tree::Outcome;
use std::alloc::Global;

/// What became of a call of a posting: it is a message, or its outcome is known.
#[derive(Drop)]
pub enum CallState {
    Message(u32),
    Known(Outcome),
}

/// A posting that was not answered yet.
#[derive(Drop)]
pub struct Pending {
    pub place: u32,
    pub call_states: Vec<CallState>,
}

/// How many postings came so far, and those that were not answered yet, in order.
#[derive(Drop)]
pub struct Pendings {
    pub(crate) alloc: Global,
    pub(crate) postings: u32,
    pub(crate) waiting: Vec<Pending>,
}

impl Pendings {
    /// Before the first posting.
    pub fn new(alloc: Global) -> Pendings
        ensures postings { result.postings ≡ 0 }
        ensures waiting { result.waiting.items ≡ [] }
    {
        Pendings {
            alloc,
            postings: 0,
            waiting: Vec::new(alloc),
        }
    }

    /// How many postings came so far.
    pub fn postings(&self) -> u32
        ensures { result ≡ self.now.postings }
    {
        self.postings
    }
}
