//! The words of the command line: the table of the commands, and what is understood of the words by it.
#![tactic(auto)]

mod found;
mod numbers;
mod program;
pub mod status;
mod table;
mod words;

pub use table::{Action, COMMANDS, CommandRow, OperandRow, OptionRow, Takes, Verb};
pub use words::{Command, Words, understood};
