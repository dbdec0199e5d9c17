//! The boxes of the sessions: the messages that wait there, the oldest first, at most 256 for a session.
#![tactic(auto)]

mod boxes;
mod mailbox;

pub use boxes::{Boxes, PutError};
