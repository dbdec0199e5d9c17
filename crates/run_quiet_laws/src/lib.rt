//! When nothing is left to do in a run of one worker, and what entries and events leave of that.
//!
//! The lemmas stand in `proofs/`: who can act (`Acting`, `Since`), quiet (`Quiet`), stillness (`Still`, `Workers`), of
//! what the sessions agree with (`Sessions`), and of the end of a run (`Ending`, `Finished`).
#![tactic(auto)]

mod laws;

pub use laws::{quiet_runs_stay_quiet, runs_that_ended_are_runs};
