//! The office of a program: the history of its calls, which is legal, and what is kept so that no call looks through
//! it.
#![tactic(auto)]

mod accept;
mod adopt;
mod aliases;
mod answer;
mod answered;
mod answering;
mod asked;
mod beginnings;
mod bind;
mod calls;
mod close;
mod collect;
mod end;
mod fetch;
mod kept;
mod log;
mod named;
mod numbers;
mod office;
mod opening;
mod post;
mod queue;
mod reply;
mod route;
mod seen;
mod send;
mod services;
mod sets;
mod take;
mod weights;
mod writing;

pub use kept::{Kept, SessionRow};
pub use numbers::numbered;
pub use office::Office;
pub use queue::Queue;
