//! The calculus in definitions: how a behaviour begins, what each event of a session makes of it, what holds of every
//! run, and which texts the standard names have.
#![tactic(auto)]

mod laws;
mod standard_names;

pub use laws::runs_keep_their_promises;
pub use standard_names::standard_names_have_their_texts;
