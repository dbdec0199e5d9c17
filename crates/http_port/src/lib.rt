//! HTTP/1.1 as a service speaks it: requests out of the bytes of a connection, however these are cut, and the bytes of
//! responses. What the bytes hold is defined over the whole of them; the reader meets that with each piece that it is
//! fed. What a client reads and writes by the same rules is open to it: the search for the end of a head part, what
//! fields say of a body, and the writing of bytes.
#![tactic(auto)]

mod fields;
mod head_reader;
mod laws;
mod response;
mod scan;
mod serve;
mod serving;
pub mod status;
mod turn;
mod unread;
mod verdict;

pub use fields::{Framing, LONGEST_BODY, Stated};
pub use head_reader::{Fed, HeadReader};
pub use laws::{cuts_do_not_matter, each_connection_has_a_reading};
pub use response::response_bytes;
pub use scan::{START, Scan};
pub use serve::{Said, Serve};
pub use serving::{WireEnd, serve_wire};
pub use turn::write_all;
pub use verdict::{LONGEST_HEAD, MOST_FIELDS};
