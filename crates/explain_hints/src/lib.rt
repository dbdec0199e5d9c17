//! What may stand at a place of a text that is no file.
//!
//! No grammar of its own is needed: a sample of what a person may be told is written after the bytes before the place,
//! and what comes of it is read. A hint may stand where that is a file or begins one. Which samples there are stands in
//! `specs/Hints.antt`, and when one may stand in `specs/MayStand.antt`.
#![tactic(auto)]

mod copies;
mod definitions;
mod found;
mod hint;
mod prefix;
mod semicolons;
mod short;
mod trial;

pub use found::hints_at;
pub use hint::{HINTS, Hint};
