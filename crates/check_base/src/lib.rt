//! What all checks of a file share: refusals, tables of names, types and interfaces, and the parts of a tree.
#![tactic(auto)]

mod clauses;
mod definitions;
mod laws;
mod least;
mod names;
mod places;
mod refusal;
mod repeated;
mod tables;

pub use clauses::{
    CONSOLE, add_names, init_of, input_port_in, is_concurrent, main_of, output_port_in, port_in,
    said_execution, set_in, variables_of,
};
pub use definitions::{interface_in, service_in, type_in};
pub use laws::type_names_are_followed;
pub use least::Least;
pub use names::Names;
pub use places::{fitting, number};
pub use refusal::{CheckError, CheckName, Refusal};
pub use repeated::{Mention, repeated_refused, repeated_refused_as};
pub use tables::{Interfaces, Types};
