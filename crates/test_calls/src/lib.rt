//! Calls of an office as tables of tests write them, a line for each, and what they answer: values, outcomes, messages,
//! refusals and calls that go out.
#![tactic(auto)]

mod outcomes;
mod outgoing;
mod posts;
mod values;
mod words;

pub use outcomes::{done, given, none, not_allowed, read_outcome, refused};
pub use outgoing::outgoing_words;
pub use posts::{read_posted, reply_words};
pub use values::{read_value, value_words};
pub use words::{Line, Words, behind, number, numbers};
