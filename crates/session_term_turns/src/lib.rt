//! Sessions over terms, as they take turns at a desk of the office.
#![tactic(auto)]

mod seated;

pub use seated::Seated;
