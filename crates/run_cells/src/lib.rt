//! The sessions of a run on one thread and their office: adoption, turns, and the calls of the one worker.
#![tactic(auto)]

mod awake;
mod cells;
mod look;
mod news;
mod parts;
mod rounds;
mod turns;
mod worker;

pub use cells::{Cell, Cells};
pub use worker::WORKER;
