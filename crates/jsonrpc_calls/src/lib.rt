//! Calls that go out. To services elsewhere: their JSON-RPC 2.0 texts, the locations that they are made to, and what is
//! heard of them. To the console: their lines.
#![tactic(auto)]

mod call;
mod console;
mod heard;
mod laws;
mod operation;
mod port;
mod reason;
mod said;

pub use call::call_text;
pub use console::console_line;
pub use heard::{nothing_heard, outcome_heard, read_answer};
pub use laws::codes_are_reasons;
pub use port::location_called;
