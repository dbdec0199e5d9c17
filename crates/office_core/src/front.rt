use crate::post::Posted;
use behaviour_tree::Outcome;
use sqlite_items::Items;

/// A call of a posting: a message to post, or what was refused before it could be posted.
#[derive(Drop)]
pub enum CallIn {
    Post { posted: Posted },
    Answered { outcome: Outcome },
}

/// What comes in at one time: a call, or those of a batch in order.
#[derive(Drop)]
pub struct Posting {
    pub calls: Items<CallIn>,
}
