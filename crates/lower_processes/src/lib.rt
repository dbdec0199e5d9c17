//! What the processes of a service mean in a program.
#![tactic(auto)]

mod behaviour_parts;
mod behaviours;
mod expressions;
mod numbers;

pub use behaviours::lowered_if_there;
pub use numbers::{Numbers, Ports};
