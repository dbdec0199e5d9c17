//! Wires that do not wait: a call that can move nothing yet answers so at once, which is counted.
//! What such a wire does else is what every wire does, in the same words.
//! A wire in memory is one by a script that says which of its calls come too early.
#![tactic(auto)]

mod early_wire;
mod traits;

pub use early_wire::EarlyWire;
pub use traits::{PollWire, Ready};
