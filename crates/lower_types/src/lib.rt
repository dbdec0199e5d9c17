//! What the types and interfaces of a file mean in a program.
#![tactic(auto)]

mod program_interfaces;
mod program_types;

pub use program_interfaces::lowered_interfaces;
pub use program_types::lowered_types;
