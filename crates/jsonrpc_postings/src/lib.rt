//! The postings that JSON-RPC texts bring in for a service, and the texts that answer them.
#![tactic(auto)]

mod law;
mod posting;
mod response;

pub use law::told_texts_are_responses;
pub use posting::posting_of;
pub use response::response_to;
