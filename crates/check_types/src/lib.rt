//! What is refused of the types and interfaces of a file.
#![tactic(auto)]

mod circles;
mod file_rules;
mod interface_rules;
mod type_rules;

pub use file_rules::file_parts_refused;
