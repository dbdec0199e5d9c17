//! Calls that go out.

use crate::values::value_words;
use crate::words::behind;
use office_core::Outgoing;
use std::alloc::Global;
use test_values::WordError;

/// A call that goes out: session, service, call, port, operation, `wants` or `tells`, and value, that as `want` writes
/// it, where it is that one.
pub fn outgoing_words(alloc: Global, outgoing: &Outgoing, want: &str) -> Result<String, WordError> {
    let Outgoing {
        session,
        service,
        call,
        port,
        op,
        value,
        wants,
    } = outgoing;
    let how = if *wants { "wants" } else { "tells" };
    let value = value_words(alloc, value, behind(want, 6))?;
    Ok(format!(in alloc; "{session} {service} {call} {port} {op} {how} {value}")?)
}
