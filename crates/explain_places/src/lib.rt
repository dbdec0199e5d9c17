//! Where a place of a text stands for who reads it: its line and column, the bytes of its line, and a mark to stand
//! under it.
//!
//! A place is a number of bytes. One behind the end of the text is taken as the end. What the numbers and the bytes are
//! stands in `specs/Places.antt`.
#![tactic(auto)]

mod line;
mod mark;
mod place;

pub use line::{before, behind, line_of};
pub use mark::mark_of;
pub use place::{Place, place_of};
