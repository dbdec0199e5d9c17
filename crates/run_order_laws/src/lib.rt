//! What was posted, answered and told in a legal history, as it grows: answers stay, and what one worker tells is in
//! the order of the record.
#![tactic(auto)]

mod laws;

pub use laws::{answers_stay, postings_are_told_in_order, postings_stay, posts_are_messages};
