//! A sweep: all that can be done in a run is done, until nothing is left to do or the front halts.
#![tactic(auto)]

mod console;
mod elsewhere;
mod sweeping;

pub use sweeping::sweep;
