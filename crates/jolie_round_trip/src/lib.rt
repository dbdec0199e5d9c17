//! What is printed of a file that was read is read as the same file, but for places.
//!
//! A file without its places stands in `specs/Placeless.antt`. `specs/ReadsBack.antt` says what the law
//! `printed_files_read_back` promises of each file of a text: what is printed of it is the text of a file, of one alone
//! and the same but for places, and all files that are the same but for places are printed alike.
#![tactic(auto)]

mod laws;

pub use laws::printed_files_read_back;
