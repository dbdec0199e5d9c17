//! The office: where each message goes, and the history of its calls.
#![tactic(auto)]

mod front;
mod history;
mod laws;
mod message;
mod outgoing;
mod post;

pub use front::{CallIn, Posting};
pub use history::{Act, Entry, History, Placed};
pub use laws::{
    histories_grow_by_entries, legal_entries_accept_by_reply, legal_histories_answer_once,
    legal_histories_number_calls, legal_histories_send_messages,
};
pub use message::{Call, Message};
pub use outgoing::{OutKind, Outgoing};
pub use post::{Birth, Mail, PostReply, Posted};
