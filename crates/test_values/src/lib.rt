//! Readers of what tables of tests write in words: roots, trees, types and expressions.
#![tactic(auto)]

mod error;
mod expression;
mod root;
mod tree;
mod types;

pub use error::WordError;
pub use expression::{read_expression, read_path};
pub use root::{read_root, root_word};
pub use tree::read_tree;
pub use types::read_type;
