//! What the program does: it checks and prints a text of Jolie, or runs its services over lines of JSON-RPC or over
//! HTTP; or it runs a load of its own.
#![tactic(auto)]

mod explain;
mod orders;
mod say;
mod show;
mod top;
mod world;

pub use check_verdicts::{Cause, Refusal, Stage, program_in};
pub use run_theorem::Ended;
pub use top::run;
pub use world::{Telling, World};
