//! Scripts over the boxes of sessions and the book of messages, with what each of their lines gives.

mod script;

pub use script::told;
