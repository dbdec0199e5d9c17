//! Tables of texts with what may stand at a place of each, found by hand from the grammar.
//!
//! A row's text is its `text`, or its `front`, and a `part` so many `times` behind it. The place is `at`, and without
//! it the end of the text. The hints are told in their order, with commas between.
use explain_hints::{Hint, hints_at};
use std::alloc::{AllocError, Global};
use test_rows::{Row, TableError};

/// What may stand at the row's place.
pub fn given(alloc: Global, row: &Row<'_>) -> Result<String, TableError> {
    let text = text_of(alloc, row)?;
    let at = place_of(alloc, row, text.len())?;
    let hints = hints_at(alloc, text.as_slice(), at)?;
    Ok(told(alloc, hints.as_slice())?)
}

fn told(alloc: Global, hints: &[Hint]) -> Result<String, AllocError> {
    let mut all = String::new(alloc);
    for (i, hint) in hints.iter().enumerate() {
        if i > 0 {
            all.push_str(", ")?;
        }
        all.push_str(hint.words())?;
    }
    Ok(all)
}

/// The row's place, which is the end where it names none.
fn place_of(alloc: Global, row: &Row<'_>, end: usize) -> Result<usize, TableError> {
    if row.has("at") {
        Ok(row.number(alloc, "at")? as usize)
    } else {
        Ok(end)
    }
}

fn text_of(alloc: Global, row: &Row<'_>) -> Result<Vec<u8>, TableError> {
    if !row.has("times") {
        return row.bytes(alloc, "text");
    }
    let mut text = row.bytes(alloc, "front")?;
    let part = row.bytes(alloc, "part")?;
    for _ in 0..row.number(alloc, "times")? {
        text.extend_from_slice(part.as_slice())?;
    }
    Ok(text)
}
