//! One session at the desk of the office of its program, for tests of its turns: its office has no other session, and
//! one worker calls it between two turns.
#![tactic(auto)]

mod opening;
mod seat;
mod seating;
mod worker;

pub use opening::WORKER;
pub use seat::Seat;
pub use seating::seated;
