//! Rows of connections whose wire fails at each of its calls.

use crate::talks::talk::{Ended, finished};
use std::alloc::{AllocError, Global};
use test_rows::{Row, TableError};

/// How many calls the wire has without a failure, and at how many of them a failure comes to something else than that
/// the connection has failed there, with a front of what is asked and written.
pub(crate) fn given(alloc: Global, row: &Row<'_>) -> Result<String, TableError> {
    let stream = row.bytes(alloc, "bytes")?;
    let says = row.text(alloc, "says")?;
    let piece = row.number(alloc, "piece")? as usize;
    Ok(told(alloc, stream.as_slice(), says.as_str(), piece)?)
}

fn told(alloc: Global, stream: &[u8], says: &str, piece: usize) -> Result<String, AllocError> {
    let whole = finished(alloc, stream, says, piece, &[])?;
    let wrong = count_wrong(alloc, stream, says, piece, &whole)?;
    let calls = whole.call_count();
    format!(in alloc; "{calls} calls, {wrong} with another end or no front")
}

/// At how many calls a failure comes to something else.
fn count_wrong(
    alloc: Global,
    stream: &[u8],
    says: &str,
    piece: usize,
    whole: &Ended,
) -> Result<u64, AllocError> {
    let mut wrong = 0_u64;
    for call in 0..whole.call_count() {
        let cut = finished(alloc, stream, says, piece, &[call as u64])?;
        if cut.end() != whole.end_at(call) || !cut.begins_as(whole) {
            wrong = wrong.saturating_add(1);
        }
    }
    Ok(wrong)
}
