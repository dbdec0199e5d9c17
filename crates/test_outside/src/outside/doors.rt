//! Doors in memory, with what comes in at them and what they tell behind it.

mod planned;
mod told;
mod visits;

pub use planned::done;
