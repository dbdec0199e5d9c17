//! The text of a run's record.
#![tactic(auto)]

mod entry;
mod examples;
mod line;
mod outcome;
mod record;
mod text;
mod tree;
mod writer;

pub use line::{Line, line_text};
pub use record::record_text;
