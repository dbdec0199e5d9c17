//! A front over doors: postings come in as requests of connections, and their answers go out on these.
#![tactic(auto)]

mod accepting;
mod answering;
mod draining;
mod front;
mod kept;
mod link;
mod next;
mod polling;
mod port;

pub use front::DoorFront;
pub use kept::Kept;
pub use link::Client;
pub use port::Listener;
