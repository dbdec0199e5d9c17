//! What a program reaches outside itself, as traits with a written meaning. Each object tells of its failures, a wire
//! whether a read or a write has failed, any other by a count of faults, which rises where a call answers `Failed` and
//! stands still else. It may tell the bytes that it holds. Beside the traits stand objects in memory for tests,
//! scripted to fail or unfailed, and the adapters to the real world.
#![tactic(auto)]

mod calls;
mod errors;
mod memory;
mod names;
mod script;
mod scripted;
mod scripted_wire;
mod system;
mod tape;
mod traits;
mod unfailed;
mod unfailing_wire;

pub use calls::WireCall;
pub use errors::{CallError, Failed};
pub use script::Script;
pub use scripted::{ScriptedFiles, ScriptedSink, ScriptedSource};
pub use scripted_wire::ScriptedWire;
pub use system::{Inputs, Outputs, Storage};
pub use traits::{Files, Sink, Source, Wire};
pub use unfailed::{UnfailingFiles, UnfailingSink, UnfailingSource};
pub use unfailing_wire::UnfailingWire;
