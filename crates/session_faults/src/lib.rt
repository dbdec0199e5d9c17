//! What a fault does to the running forms: what it kills, what goes before it, and where it goes.
#![tactic(auto)]

mod decision;
mod kills;
mod places;
mod ready;
mod shapes;
mod throws;

pub use decision::Decision;
pub use kills::kill;
pub use places::place_of;
pub use ready::least_ready;
pub use throws::{carry, decided};
