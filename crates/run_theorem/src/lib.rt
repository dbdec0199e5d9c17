//! The theorem of runs, in definitions: `specs/Theorem.antt` says the whole, what every run leaves, what one over lines
//! adds, and what one over connections adds. And fronts, as a trait: the side of a run on which postings come in, and
//! to which their answers and the notes go.
#![tactic(auto)]

mod ended;
mod front;

pub use ended::Ended;
pub use front::{Front, Next};
