//! A run of a program over lines, on one thread: its requests are lines of a source, its answers lines of an output.
#![tactic(auto)]

mod front;
mod kept;
mod lines;
mod next_line;
mod piece;
mod reader;
mod response;
mod run;
mod status;
mod writing;

pub use run::run_lines;
