//! The handlers of a scope: behaviours under the names of faults and of scopes, and what installing, spending and
//! completing make of them.
#![tactic(auto)]

mod fill;
mod former;
mod limits;
mod row;
mod size;
mod table;

pub use table::{InstallError, Table};
