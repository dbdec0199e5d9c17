//! Scripts over the correlation variables of sessions, with what each of their lines gives.

mod script;
mod shapes;

pub use script::told;
