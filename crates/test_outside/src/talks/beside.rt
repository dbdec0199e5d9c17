//! Rows of two connections beside one another: both are asked before one is told, the second first.

use crate::talks::talk::{Ended, Talk};
use std::alloc::{AllocError, Global};
use test_rows::{Row, TableError};

/// The most rounds of two connections.
const MOST: usize = 1000;

/// What both come to.
pub(crate) fn given(alloc: Global, row: &Row<'_>) -> Result<String, TableError> {
    let stream = row.bytes(alloc, "bytes")?;
    let says = row.text(alloc, "says")?;
    let piece = row.number(alloc, "piece")? as usize;
    let mut talk = Talk::new(alloc, stream.as_slice(), says.as_str(), piece, &[])?;
    let other = ended_beside(alloc, row, &mut talk, piece)?;
    let one = Box::into_inner(talk).into_ended()?;
    Ok(lines(alloc, &one, &other)?)
}

/// The second connection, when both are over.
fn ended_beside(
    alloc: Global,
    row: &Row<'_>,
    one: &mut Talk<'_>,
    piece: usize,
) -> Result<Box<Ended>, TableError> {
    let stream = row.bytes(alloc, "beside")?;
    let says = row.text(alloc, "beside_says")?;
    let mut other = Talk::new(alloc, stream.as_slice(), says.as_str(), piece, &[])?;
    both(one, &mut other)?;
    Ok(Box::into_inner(other).into_ended()?)
}

fn lines(alloc: Global, one: &Ended, other: &Ended) -> Result<String, AllocError> {
    let mut text = one.text(alloc)?;
    text.push_str("\n")?;
    text.push_str(other.text(alloc)?.as_str())?;
    Ok(text)
}

fn both(one: &mut Talk<'_>, other: &mut Talk<'_>) -> Result<(), AllocError> {
    for _ in 0..MOST {
        if one.is_over() && other.is_over() {
            return Ok(());
        }
        one.ask()?;
        other.ask()?;
        other.tell()?;
        one.tell()?;
    }
    Ok(())
}
