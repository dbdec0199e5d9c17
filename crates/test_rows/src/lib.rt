//! Tables of tests for programs that print a line for each row.
//!
//! A table is a text file of groups, a group is a name, fields that all its rows share and rows, and a row is a name
//! and fields of its own:
//!
//! ```text
//! What stands before the first group is a remark.
//!
//! == words_and_signs
//! before: main {
//! behind =  " }"
//! -- 1
//! text: a < b
//! tokens: word < word
//! -- a line feed ends a comment
//! text: // x
//! text: a
//! tokens: word
//! -- bytes that are no text
//! text = "a \xFF\n"
//! tokens: bad byte at 2
//! ```
//!
//! - `KEY: VALUE` is a field whose value is the rest of the line, as it stands.
//! - `KEY = "VALUE"` is a field whose value is read with the escapes `\n`, `\r`, `\t`, `\0`, `\\`, `\"` and `\xHH`, a
//! byte.
//! - A key that stands on several lines means what these lines say with a line feed between them.
//! - A field that a row lacks is that of its group.
//! - Lines of another form mean nothing.
//!
//! A program hands `run` what a row expects and what it gives, both read of the row's fields. Its `args` names the
//! files of its `data/`, and its `stdout` has the line `GROUP NAME: as expected` for each row and a last line with the
//! count.
#![tactic(auto)]

mod error;
mod field;
mod files;
mod program;
mod report;
mod row;

pub use error::TableError;
pub use program::run;
pub use row::Row;
