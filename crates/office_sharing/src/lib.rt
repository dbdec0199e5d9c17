//! The rule by which threads share an office: one legal history, a turn, and seats that have seen beginnings of it.
//! What each step of a seat owes the rule is a lemma over plain data.
#![tactic(auto)]

mod laws;
mod naming;
mod plays;
mod rule;
mod view;

pub use laws::steps_keep_the_rule;
pub use naming::Naming;
pub use plays::{Commit, Copied, GiveBack, Look, Make, Merge, TakeTurn};
pub use rule::OneHistory;
pub use view::{KeptCalls, View};
