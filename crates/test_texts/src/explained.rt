//! Tables of files with what is said of each, found by hand from the rules.
//!
//! A row's text is its `text`, or its `front` and a `part` so many `times` behind it. Each file is called `f.ol`.
use explain_text::{explained, noted, unreadable};
use std::alloc::{AllocError, Global};
use test_rows::{Row, TableError};

/// How each file is called.
const FILE: &str = "f.ol";

/// What the row expects: the lines as they stand there, with the end of the last one.
pub fn expected(alloc: Global, row: &Row<'_>) -> Result<String, TableError> {
    let mut want = row.text(alloc, "says")?;
    want.push('\n')?;
    Ok(want)
}

/// What is said of the row's file.
pub fn given(alloc: Global, row: &Row<'_>) -> Result<String, TableError> {
    if row.has("unreadable") {
        return Ok(unreadable(alloc, FILE)?);
    }
    let text = text_of(alloc, row)?;
    Ok(said(alloc, text.as_slice())?)
}

fn said(alloc: Global, text: &[u8]) -> Result<String, AllocError> {
    match noted(alloc, FILE, text)? {
        Ok(bytes) => shown(alloc, bytes),
        Err(refusal) => {
            let bytes = explained(alloc, FILE, text, &refusal)?;
            shown(alloc, bytes)
        }
    }
}

/// Bytes as a text. The rows have no file of which more is shown than UTF-8.
fn shown(alloc: Global, bytes: Vec<u8>) -> Result<String, AllocError> {
    match String::from_utf8(bytes) {
        Ok(text) => Ok(text),
        Err(_) => String::from_str(alloc, "no UTF-8\n"),
    }
}

fn text_of(alloc: Global, row: &Row<'_>) -> Result<Vec<u8>, TableError> {
    if !row.has("times") {
        return row.bytes(alloc, "text");
    }
    let mut text = row.bytes(alloc, "front")?;
    let part = row.bytes(alloc, "part")?;
    for _ in 0..row.number(alloc, "times")? {
        text.extend_from_slice(part.as_slice())?;
    }
    Ok(text)
}
