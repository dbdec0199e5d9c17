//! Where connections come in: what opens doors at locations, and doors that give wires which do not wait, as traits with
//! a written meaning. Doors count what they opened and what came back to them, and may tell the tries to open one, the
//! bytes of the wires and what each door counted. Beside the traits stand the counts, the book in which doors keep all
//! that they tell, and the wires with a count that such doors give.
#![tactic(auto)]

mod book;
mod counted_wire;
mod counts;
mod returns;
mod traits;

pub use book::Book;
pub use counted_wire::CountedWire;
pub use counts::{Counts, DoorCounts};
pub use returns::{Return, ReturnedDoors, Tries, Try};
pub use traits::{Accept, Door, Doors};
