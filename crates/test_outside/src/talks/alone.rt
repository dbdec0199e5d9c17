//! Rows of connections that are served alone.

use crate::talks::polled;
use crate::talks::talk::finished;
use std::alloc::{AllocError, Global};
use test_rows::{Row, TableError};

/// What the connection comes to in pieces of each size; or step by step, where the row says how many bytes are in a
/// piece; or so where the wire fails; or how the wire is called.
pub(crate) fn given(alloc: Global, row: &Row<'_>) -> Result<String, TableError> {
    let stream = row.bytes(alloc, "bytes")?;
    let says = row.text(alloc, "says")?;
    given_of(alloc, row, stream.as_slice(), says.as_str())
}

fn given_of(alloc: Global, row: &Row<'_>, stream: &[u8], says: &str) -> Result<String, TableError> {
    if !row.has("piece") {
        return Ok(in_all_pieces(alloc, stream, says)?);
    }
    let piece = row.number(alloc, "piece")? as usize;
    if row.has("calls") {
        return Ok(calls(alloc, stream, says, piece)?);
    }
    if !row.has("fails") {
        return Ok(steps(alloc, stream, says, piece)?);
    }
    let fails = u64::from(row.number(alloc, "fails")?);
    Ok(outcome(alloc, stream, says, piece, &[fails])?)
}

fn calls(alloc: Global, stream: &[u8], says: &str, piece: usize) -> Result<String, AllocError> {
    finished(alloc, stream, says, piece, &[])?.calls(alloc)
}

fn steps(alloc: Global, stream: &[u8], says: &str, piece: usize) -> Result<String, AllocError> {
    let ended = finished(alloc, stream, says, piece, &[])?;
    String::from_str(alloc, ended.steps())
}

fn outcome(
    alloc: Global,
    stream: &[u8],
    says: &str,
    piece: usize,
    failing: &[u64],
) -> Result<String, AllocError> {
    finished(alloc, stream, says, piece, failing)?.text(alloc)
}

/// What it comes to whole, and a remark where that differs in pieces, or over a wire that does not wait.
fn in_all_pieces(alloc: Global, stream: &[u8], says: &str) -> Result<String, AllocError> {
    let mut whole = outcome(alloc, stream, says, stream.len(), &[])?;
    if !is_same_in_pieces(alloc, stream, says, whole.as_str())? {
        whole.push_str(", and it differs in pieces")?;
    }
    if polled::outcome(alloc, stream, says)?.as_str() != whole.as_str() {
        whole.push_str(", and it differs over a wire that does not wait")?;
    }
    Ok(whole)
}

fn is_same_in_pieces(
    alloc: Global,
    stream: &[u8],
    says: &str,
    whole: &str,
) -> Result<bool, AllocError> {
    for piece in 1..stream.len() {
        if outcome(alloc, stream, says, piece, &[])?.as_str() != whole {
            return Ok(false);
        }
    }
    Ok(true)
}
