//! Which texts are locations: of a service of the same run, of a socket.
#![tactic(auto)]

mod locations;

pub use locations::{begins_local, is_local, is_socket};
