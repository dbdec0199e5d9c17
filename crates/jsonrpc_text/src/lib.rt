//! JSON-RPC 2.0 texts: what a text posts, and the texts that answer it.
#![tactic(auto)]

mod answer;
mod from_json;
mod laws;
mod message;
mod read;
mod to_json;

pub use answer::{answer_text, batch_text, early_text};
pub use from_json::tree_in;
pub use laws::{answers_say_their_outcomes, texts_post_some, trees_read_back};
pub use message::{Early, Id, Read, ReadCall};
pub use read::{has_version, read_message, value_of};
pub use to_json::json_of;
