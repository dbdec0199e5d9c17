use crate::post::{PostReply, Posted};
use behaviour_tree::{Outcome, Reason};
use correlation::BindReply;
use jolie_trees::{Root, Tree};

/// Where a session's message went: to a service of the program under that number, nowhere, or out.
#[derive(Clone, Copy, Debug, PartialEq, Eq)]
pub enum Placed {
    At(u32),
    Refused(Reason),
    Out,
}

/// A call of the office with its reply.
#[derive(Drop)]
pub enum Act {
    Post {
        posting: u32,
        index: u32,
        posted: Posted,
        reply: PostReply,
    },
    Adopt {
        service: u32,
    },
    Take {
        message: u32,
    },
    Bind {
        variable: u32,
        value: Root,
        reply: BindReply,
    },
    Reply {
        message: u32,
        outcome: Outcome,
    },
    Send {
        call: u32,
        port: u32,
        op: u32,
        value: Tree,
        wants: bool,
        placed: Placed,
    },
    /// The session took the answer of its call.
    Answer {
        call: u32,
        outcome: Outcome,
    },
    End,
    Collect {
        message: u32,
        outcome: Outcome,
    },
    Fetch {
        session: u32,
        call: u32,
    },
    Answered {
        session: u32,
        call: u32,
        outcome: Outcome,
    },
    Close,
    Stop,
}

/// A call by an actor: a session, or from 4,096 on a worker.
#[derive(Drop)]
pub struct Entry {
    pub actor: u32,
    pub act: Act,
}

/// The calls of the office, oldest first.
#[derive(Drop)]
pub struct History {
    pub entries: Vec<Entry>,
}
