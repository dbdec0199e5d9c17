//! Writing to a sink, as far as it takes what is written.
#![tactic(auto)]

mod writing;

pub use writing::{write_all, write_cut};
