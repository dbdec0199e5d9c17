//! What holds of the office that takes calls, beside what its calls say.
#![tactic(auto)]

mod laws;

pub use laws::{first_values_are_bound, routed_messages_find_room};
