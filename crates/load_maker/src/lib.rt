//! The load: the order service with lines of orders made by a rule, run in memory, and the one line that says how the
//! orders went.
#![tactic(auto)]

mod answers;
mod generator;
mod load;
mod order_service;
mod sink;

pub use answers::summary;
pub use generator::make;
pub use load::run_load;
