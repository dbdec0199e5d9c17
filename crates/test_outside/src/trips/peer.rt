//! What the peer of a row sends.

use std::alloc::Global;
use test_rows::{Row, TableError};

/// The row's bytes; or its front, what it says so many times, its back, and in the same way what its body says.
pub(crate) fn sent_by(alloc: Global, row: &Row<'_>) -> Result<Vec<u8>, TableError> {
    if !row.has("times") {
        return row.bytes(alloc, "bytes");
    }
    let mut sent = row.bytes(alloc, "front")?;
    add_rest(alloc, row, &mut sent)?;
    Ok(sent)
}

fn add_rest(alloc: Global, row: &Row<'_>, sent: &mut Vec<u8>) -> Result<(), TableError> {
    add_times(alloc, row, "what", "times", sent)?;
    sent.extend_from_slice(row.bytes(alloc, "back")?.as_slice())?;
    if row.has("body") {
        add_times(alloc, row, "body", "body_times", sent)?;
    }
    Ok(())
}

/// Adds what a row says under a key as often as it says under another.
fn add_times(
    alloc: Global,
    row: &Row<'_>,
    what: &'static str,
    times: &'static str,
    sent: &mut Vec<u8>,
) -> Result<(), TableError> {
    let times = row.number(alloc, times)?;
    let what = row.bytes(alloc, what)?;
    for _ in 0..times {
        sent.extend_from_slice(what.as_slice())?;
    }
    Ok(())
}
