//! Tables of places in texts, with their line and column, the line itself and the mark under it, found by hand.
use explain_places::{line_of, mark_of, place_of};
use std::alloc::{AllocError, Global};
use test_rows::{Row, TableError};

/// What the row expects: a line each for the place, its line and the mark.
pub fn expected(alloc: Global, row: &Row<'_>) -> Result<String, TableError> {
    let place = row.text(alloc, "place")?;
    let line = row.bytes(alloc, "line")?;
    let mark = row.bytes(alloc, "mark")?;
    Ok(said(alloc, place.as_str(), line.as_slice(), mark.as_slice())?)
}

/// The same of the row's text at its place.
pub fn given(alloc: Global, row: &Row<'_>) -> Result<String, TableError> {
    let text = row.bytes(alloc, "text")?;
    let at = row.number(alloc, "at")? as usize;
    let place = place_of(text.as_slice(), at);
    let mark = mark_of(alloc, text.as_slice(), at)?;
    let numbers = format!(in alloc; "{}:{}", place.line, place.column)?;
    Ok(said(
        alloc,
        numbers.as_str(),
        line_of(text.as_slice(), at),
        mark.as_slice(),
    )?)
}

fn said(alloc: Global, place: &str, line: &[u8], mark: &[u8]) -> Result<String, AllocError> {
    let line = escaped(alloc, line)?;
    let mark = escaped(alloc, mark)?;
    format!(in alloc; "{place}\n{line}\n{mark}")
}

/// Bytes as a text, with those that ASCII does not print as `\xNN`.
fn escaped(alloc: Global, bytes: &[u8]) -> Result<String, AllocError> {
    let mut text = String::new(alloc);
    for byte in bytes {
        let byte = *byte;
        if byte == b' ' || byte.is_ascii_graphic() {
            text.push(char::from(byte))?;
        } else {
            text.push_str(format!(in alloc; "\\x{byte:02x}")?.as_str())?;
        }
    }
    Ok(text)
}
