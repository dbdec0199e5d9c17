//! Links in memory and one that reaches nobody, with what their trips bring and what they tell of them.

mod travels;

pub use travels::travelled;
