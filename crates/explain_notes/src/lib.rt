//! What a person would want to be told of a file that is accepted: names that meet nothing, and statements that do less
//! than they seem to.
//!
//! Each rule stands in `specs/Rules.antt`, and what a file's notes are in `specs/Notes.antt`.
#![tactic(auto)]

mod around;
mod content;
mod declared;
mod expressions;
mod facts;
mod kind;
mod list;
mod note;
mod processes;
mod role;
mod rules;
mod service;
mod services;
mod sockets;
mod statements;

pub use kind::NoteKind;
pub use list::Mentions;
pub use note::Note;
pub use service::notes_of;
