//! One turn of a session at a desk of the office.
//!
//! A session is anything with the calls of `Session`, and a desk anything with those of `Desk`: the office of one
//! thread, one that others call between two looks, one that lets a caller wait. What was seen of the office is in the
//! *pass*, which each call of a desk changes. A turn looks at the enabled strands in order and does the first event
//! that the office allows; that is proved here once, for every session and every desk.
#![tactic(auto)]

mod attempt;
mod desk;
mod laws;
mod look;
mod plain;
mod seating;
mod session;
mod turn;

pub use desk::Desk;
pub use laws::{kept_sessions_agree, scopes_name_themselves_by_this, sessions_may_ask};
pub use look::may_act;
pub use plain::PlainDesk;
pub use seating::Seating;
pub use session::Session;
pub use turn::{Player, Turn, turn_of};
