//! The values of a service: texts, roots, paths and trees, with the limits of a store.
#![tactic(auto)]

mod bytes;
mod extent;
mod laws;
mod path;
mod root;
mod set_error;
mod text;
mod tree;

pub use bytes::Bytes;
pub use laws::{trees_keep_what_is_set, undef_keeps_limits, undef_takes};
pub use path::{Path, Step};
pub use root::Root;
pub use set_error::SetError;
pub use text::Text;
pub use tree::{Children, Members, Tree};
