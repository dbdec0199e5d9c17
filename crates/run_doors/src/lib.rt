//! A run of a program over doors, on one thread: its requests come on connections, and its answers go out on these.
#![tactic(auto)]

mod giving_back;
mod opening;
mod run;
mod status;

pub use run::run_doors;
