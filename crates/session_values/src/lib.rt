//! What the places of a session evaluate, look up and store.
#![tactic(auto)]

mod accepted;
mod actor;
mod changes;
mod evaluate;
mod looks;
mod memory;
mod names;
mod placed;
mod sent;
mod written;

pub use accepted::{fault_taken, reply_taken, request_taken, response_taken};
pub use actor::Actor;
pub use changes::{assign, copy, receive, take_away};
pub use evaluate::{binding, tree_at, truth, value};
pub use looks::{fault_of_assign, fault_of_copy, fault_of_undef};
pub use memory::Memory;
pub use names::{name_at, number_of};
pub use sent::{Sent, operation_sent};
pub use written::written_path;
