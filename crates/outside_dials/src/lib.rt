//! The way to a wire of one's own to a location, as a trait with a written meaning: each wire that a dialler gives
//! comes back to it once its user is through with it. A dialler has a count of faults, which rises where a call fails
//! or a wire comes back that had failed, and stands still else. It may tell the locations that it dialled, and what was
//! done with the last wire that came back. Beside the trait stand diallers in memory for tests, scripted to fail or
//! unfailed.
#![tactic(auto)]

mod coming;
mod dial;
mod locations;
mod scripted_dial;
mod unfailing_dial;

pub use dial::Dial;
pub use scripted_dial::ScriptedDial;
pub use unfailing_dial::UnfailingDial;
