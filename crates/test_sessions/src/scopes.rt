//! Scripts over the handlers of two scopes, an inner one and the one around it, with what each of their lines gives.
//!
//! Both tables are empty at first; the inner scope has the number 1, the outer one 0. Behaviours and handlers are
//! written in words, operands first: see `test_behaviours`.

mod script;

pub use script::told;
