//! What the entries of a history say of sessions, messages and calls. Each answer looks through the whole history.
#![tactic(auto)]

mod calls;
mod messages;
mod sessions;

pub use calls::{answer_was_taken, was_brought, was_fetched};
pub use messages::{took, was_collected, was_posted, was_replied, was_taken};
pub use sessions::has_ended;
