//! An office that threads share: each calls it through a pass, whose calls have the replies of the office of one thread
//! at one point of the one history.
#![tactic(auto)]

mod hand;
mod office;
mod opened;
mod pass;
mod session_calls;
mod turn;
mod worker_calls;

pub use office::SharedOffice;
pub use office_sharing::Naming;
pub use opened::Opened;
pub use pass::Pass;
