//! The messages that the office accepted, each with where it came from and its one answer.
#![tactic(auto)]

mod book;
mod origin;
mod place;

pub use book::Book;
pub use origin::Origin;
