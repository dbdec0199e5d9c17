//! Behaviours and handlers as the words of the tables of tests, both read and told.
#![tactic(auto)]

mod behaviours;
mod outline;

pub use behaviours::{read_behaviour, read_handlers};
pub use outline::Outline;
