//! Doors over the TCP sockets of the system: listeners, and the connections that come in at them, none of whose calls
//! waits. One poll serves them all. They count what they give and what fails, and tell no bytes.
#![tactic(auto)]

mod board;
mod door_wire;
mod line;
mod listening;
mod obstacle;
mod patience;
mod poller;
mod returned_wires;
mod saying;
mod seat;
mod socket_door;
mod socket_doors;

pub use door_wire::DoorWire;
pub use patience::Patience;
pub use returned_wires::ReturnedWire;
pub use socket_door::SocketDoor;
pub use socket_doors::SocketDoors;
