//! What is refused of the ports and correlation sets of a service.
#![tactic(auto)]

mod aliases;
mod brought;
mod port_rules;
mod set_rules;

pub use port_rules::{input_locations, ports_refused};
pub use set_rules::{sets_refused, types_in_sets};
