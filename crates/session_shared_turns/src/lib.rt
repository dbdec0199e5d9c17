//! Sessions at the office that threads share: what a session may ask by what its pass has seen, it may ask whatever
//! others do, so that a turn is the same there as at the office of one thread.
#![tactic(auto)]

mod desk;
mod laws;

pub use desk::SharedDesk;
pub use laws::what_a_session_may_ask_stays;
