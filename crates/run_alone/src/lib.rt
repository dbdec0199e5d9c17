//! One worker runs a program: it posts what a front brings in, gives the sessions their turns, and answers.
#![tactic(auto)]

mod alone;
mod bringing;
mod ending;
mod worker;

pub use worker::{Finished, run_over};
