//! The checks of a file, and the program that it means.
#![tactic(auto)]

mod checking;
mod counted;
mod file_names;
mod files;
mod mentioned;
mod program;
mod program_services;
mod refusals;
mod service_numbers;
mod service_rules;
mod sides;

pub use check_base::{CheckError, CheckName};
pub use checking::check;
