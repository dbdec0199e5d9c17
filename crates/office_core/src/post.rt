use behaviour_tree::Reason;
use jolie_trees::{Text, Tree};

/// A message as it is handed in, to the service of that number.
#[derive(Drop)]
pub struct Posted {
    pub service: u32,
    pub op: Text,
    pub value: Tree,
}

/// What a post answers: the number of the message, or why it was refused.
#[derive(Clone, Copy, Debug, PartialEq, Eq)]
pub enum PostReply {
    Accepted(u32),
    Refused(Reason),
}

/// A session and the service that it is of.
#[derive(Clone, Copy, Debug, PartialEq, Eq)]
pub struct Birth {
    pub session: u32,
    pub service: u32,
}

/// A message as its session takes it.
#[derive(Drop)]
pub struct Mail {
    pub message: u32,
    pub op: u32,
    pub value: Tree,
}
