//! The events of a session: what fault a place has, what it asks of the office, and what its event makes; and the
//! events of requests and calls that are answered.
#![tactic(auto)]

mod answer;
mod asked;
mod bind;
mod choice;
mod event;
mod fault;
mod handlers;
mod laws;
mod local;
mod message;
mod place;
mod read;
mod reply;
mod scene;
mod scope;
mod send;

pub use answer::{answer_came, killed_answer_came};
pub use asked::asked_of;
pub use event::{Acted, Moved, shared};
pub use fault::fault_of;
pub use laws::places_ask_for_their_events;
pub use place::acted;
pub use read::{Read, SentCall, read_outcome};
pub use reply::{failure_told, replied};
pub use scene::Scene;
pub use scope::scope_acts;
