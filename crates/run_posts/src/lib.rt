//! The postings of a run on one thread: their calls are posted in order, and each posting is answered once each of its
//! calls has its outcome.
#![tactic(auto)]

mod collecting;
mod pending;
mod posting;
mod telling;

pub use pending::{CallState, Pending, Pendings};
