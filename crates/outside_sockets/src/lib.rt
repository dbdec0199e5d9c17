//! A dialler and connections over the TCP sockets of the system. They tell what fails, and no bytes.
#![tactic(auto)]

mod allowance;
mod location;
mod socket_dial;
mod socket_wire;
mod timed_stream;

pub use location::address_of;
pub use socket_dial::SocketDial;
pub use socket_wire::SocketWire;
pub use timed_stream::TimedStream;
