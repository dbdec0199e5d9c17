//! What is said of a text: which program it is, or the one refusal that it has.
//!
//! `program_in` gives the program or the refusal, `definitions_in` the definitions of a program or the refusal, and
//! `verdict_of` the definitions, be they a program or not, or the refusal. What refuses a text and
//! the line that says it stand in `specs/Verdicts.antt`, which texts are programs in `specs/Programs.antt`.
#![tactic(auto)]

mod checked;
mod definitions;
mod refusal;
mod verdict;

pub use checked::{program_in, refusal_in};
pub use definitions::definitions_in;
pub use refusal::{Cause, Refusal, Stage};
pub use verdict::{Verdict, verdict_of};
