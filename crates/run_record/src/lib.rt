//! What a run leaves behind, and what a run is.
#![tactic(auto)]

mod record;

pub use record::{Record, Traffic};
