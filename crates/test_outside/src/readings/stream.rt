//! The bytes of a row's connection.

use std::alloc::Global;
use test_rows::{Row, TableError};

/// The row's bytes; or its front, what it says so many times, and its back.
pub(crate) fn stream_of(alloc: Global, row: &Row<'_>) -> Result<Vec<u8>, TableError> {
    if !row.has("times") {
        return row.bytes(alloc, "bytes");
    }
    let mut stream = row.bytes(alloc, "front")?;
    let what = row.bytes(alloc, "what")?;
    for _ in 0..row.number(alloc, "times")? {
        stream.extend_from_slice(what.as_slice())?;
    }
    stream.extend_from_slice(row.bytes(alloc, "back")?.as_slice())?;
    Ok(stream)
}
