//! Strands by number, each with a stack of frames, with what it keeps beside them, and with its members.
#![tactic(auto)]

mod arena;
mod row;
mod strand;

pub use arena::Arena;
pub use row::Row;
pub use strand::{Members, StrandNo};
