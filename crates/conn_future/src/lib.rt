//! One connection of HTTP/1.1 over a wire that does not wait: it is polled by hand, and each poll goes as far as the
//! wire goes, until a request is whole that has no answer yet. Its body is handed out, and its answer is told later.
//! What passes on it is what passes on a connection over a wire that waits, whenever the wire can move something.
#![tactic(auto)]

mod due;
mod future;
mod kept;
mod law;
mod stage;
mod task;
mod turn;

pub use due::Due;
pub use kept::Kept;
pub use law::tasks_keep_their_word;
pub use stage::Stage;
pub use task::{ConnTask, Traffic};
