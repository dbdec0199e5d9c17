//! The way to services elsewhere, as a trait with a written meaning: a trip takes a text to a location and brings bytes
//! back. A link counts the trips that failed, one for each, and may tell the trips that it made and what the next ones
//! bring. Beside the trait stand links in memory for tests, scripted to fail or unfailed, and one that reaches nobody.
#![tactic(auto)]

mod coming;
mod link;
mod no_link;
mod scripted_link;
mod trips;
mod unfailing_link;

pub use link::Link;
pub use no_link::NoLink;
pub use scripted_link::ScriptedLink;
pub use trips::Trip;
pub use unfailing_link::UnfailingLink;
