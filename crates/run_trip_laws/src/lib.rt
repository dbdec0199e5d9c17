//! Laws of the calls that go out of a run: which of them wait, what is noted, and the trips.
#![tactic(auto)]

mod laws;

pub use laws::{calls_go_out_in_order, calls_that_went_out_came_back};
