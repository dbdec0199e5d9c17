//! Doors in memory, for tests: scripted to fail, or unfailed. They give their connections in order, of which some calls
//! come too early, and keep what was opened at them and what came back.
#![tactic(auto)]

mod new_wire;
mod poll_wires;
mod queue;
mod scripted_door;
mod scripted_doors;
mod unfailing_door;
mod unfailing_doors;
mod visit;

pub use poll_wires::{ScriptedPollWire, UnfailingPollWire};
pub use scripted_door::ScriptedDoor;
pub use scripted_doors::ScriptedDoors;
pub use unfailing_door::UnfailingDoor;
pub use unfailing_doors::UnfailingDoors;
