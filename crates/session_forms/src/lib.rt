//! The running forms of a session: how a behaviour begins, what is ready, open or waiting in it, and its normal form.
#![tactic(auto)]

mod begun;
mod boxes;
mod call;
mod fault;
mod installed;
mod normal;
mod open;
mod rest;
mod standing;
mod stands;
mod start;
mod state;
mod term;

pub use begun::Begun;
pub use boxes::{boxed, finish, protect, put, replaced, taken, unwrap};
pub use call::Call;
pub use fault::Fault;
pub use installed::Installed;
pub use normal::{begin, begin_both, begin_rest, normalize};
pub use open::{open_requests, waiting};
pub use rest::Rest;
pub use standing::strands_of;
pub use start::{in_sequence, started, started_both};
pub use state::ScopeState;
pub use term::{Strand, Term};
