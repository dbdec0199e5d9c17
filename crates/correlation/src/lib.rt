//! Correlation: the variables of sessions, by which a message finds its session.
#![tactic(auto)]

mod bind_reply;
mod index;
mod key;
mod keys;
mod rows;
mod session;
mod set_keys;

pub use bind_reply::BindReply;
pub use key::{Key, KeyRow, Sought};
pub use rows::Rows;
pub use session::{Session, SetOf, Sets, Values, Variables, Written};
