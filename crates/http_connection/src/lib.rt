//! One connection of HTTP/1.1, as a front of several connections holds it: it reads on until a request is whole and
//! hands out its body, and is told the answer later, possibly after other connections were served. What passes on it is
//! what its bytes hold, whatever the pieces in which they come.
#![tactic(auto)]

mod connection;
mod kept;
mod law;
mod sending;
mod stage;
mod turn;

pub use connection::Connection;
pub use kept::Kept;
pub use law::connections_keep_their_word;
pub use stage::Stage;
