//! Whether a call of an office may be made. A caller that knows by itself what its calls ask for needs none of these.
//! What is asked of messages, and of calls that were sent, looks through the whole history.
#![tactic(auto)]

mod calls;
mod messages;
mod sessions;

pub use calls::{is_fetched, is_wanted, next_call};
pub use messages::{is_collectable, is_open, took};
pub use sessions::{acts, has_variable, is_running, works};
