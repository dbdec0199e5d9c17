//! What is refused of the processes of a service.
#![tactic(auto)]

mod first_inputs;
mod init_rules;
mod operation_tables;
mod process_part_rules;
mod process_rules;
mod surroundings;

pub use first_inputs::{FirstInput, first_input};
pub use init_rules::init_refused;
pub use operation_tables::{Declared, Operations};
pub use process_rules::block_refused;
pub use surroundings::Surroundings;
