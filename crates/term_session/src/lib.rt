//! A session of the calculus over terms, for the whole language.
#![tactic(auto)]

mod act;
mod act_here;
mod config;
mod enabled;
mod glance;
mod look;
mod needed;
mod session;
mod step;
mod turn;

pub use session::{StepError, TermSession};
