//! Messages and their types: whether a tree is of a type, where it breaks the type, and the tree with its ints made
//! longs.
#![tactic(auto)]

mod breach;
mod conform;
mod laws;
mod shape;
mod widening;

pub use breach::first_breach;
pub use conform::conforms;
pub use laws::{breaches_are_where_trees_do_not_conform, breaches_are_where_trees_do_not_fit};
pub use widening::widen;
