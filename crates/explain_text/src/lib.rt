//! What `explain` says of a file: `ok` and the notes of a program, or the words of a refusal, its line with a mark, and
//! what may stand there instead.
//!
//! The lines of a refusal stand in `specs/Explained.antt`, the words in `specs/Words.antt`, the advice in
//! `specs/Advised.antt`, and the lines of a program in `specs/Noted.antt`.
#![tactic(auto)]

mod advice;
mod front;
mod lines;
mod listed;
mod notes;
mod refused;
mod words;

pub use advice::Advice;
pub use lines::unreadable;
pub use notes::noted;
pub use refused::explained;
