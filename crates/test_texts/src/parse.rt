//! Tables of texts with what the parser says of them and what is printed of their trees, found by hand from the
//! grammar.
//!
//! A row's text is its `text`, between a `before` and a `behind` where it has these, or its `front`, its `part` so many
//! `times` and its `back`. Of the text it gives the `verdict`, what is `printed` without what was put around it, what
//! is printed `again` of that, what is said of its `fronts`, the texts that it goes beyond, how many `definitions` its
//! tree has, or the place of the first operand of a `sum` and how many follow.
mod answer;
mod tree;

use crate::parse::answer::{Framed, again, definitions, fronts, printed, sum, verdict};
use std::alloc::{AllocError, Global};
use test_rows::{Row, TableError};

/// What a row may expect.
const ASPECTS: [&str; 6] = [
    "verdict",
    "printed",
    "again",
    "fronts",
    "definitions",
    "sum",
];

/// What the row expects, a line for each aspect.
pub fn expected(alloc: Global, row: &Row<'_>) -> Result<String, TableError> {
    let mut all = String::new(alloc);
    for aspect in ASPECTS {
        if row.has(aspect) {
            all.push_str(row.text(alloc, aspect)?.as_str())?;
            all.push('\n')?;
        }
    }
    Ok(all)
}

/// What comes of the row's text, a line for each aspect that it expects.
pub fn given(alloc: Global, row: &Row<'_>) -> Result<String, TableError> {
    let before = text_or_nothing(alloc, row, "before")?;
    let inner = text_of(alloc, row)?;
    let behind = text_or_nothing(alloc, row, "behind")?;
    let text = format!(in alloc; "{before}{inner}{behind}")?;
    let framed = Framed {
        text: text.as_str(),
        before: before.as_str(),
        behind: behind.as_str(),
    };
    Ok(all_seen(alloc, row, framed)?)
}

fn all_seen(alloc: Global, row: &Row<'_>, framed: Framed<'_>) -> Result<String, AllocError> {
    let mut all = String::new(alloc);
    for aspect in ASPECTS {
        if row.has(aspect) {
            all.push_str(seen(alloc, framed, aspect)?.as_str())?;
            all.push('\n')?;
        }
    }
    Ok(all)
}

fn seen(alloc: Global, framed: Framed<'_>, aspect: &str) -> Result<String, AllocError> {
    match aspect {
        "printed" => printed(alloc, framed),
        "again" => again(alloc, framed),
        "fronts" => fronts(alloc, framed.text.as_bytes()),
        "definitions" => definitions(alloc, framed),
        "sum" => sum(alloc, framed),
        _ => verdict(alloc, framed.text.as_bytes()),
    }
}

fn text_or_nothing(alloc: Global, row: &Row<'_>, key: &'static str) -> Result<String, TableError> {
    if row.has(key) {
        row.text(alloc, key)
    } else {
        Ok(String::new(alloc))
    }
}

fn text_of(alloc: Global, row: &Row<'_>) -> Result<String, TableError> {
    if row.has("times") {
        return repeated(alloc, row);
    }
    row.text(alloc, "text")
}

/// A text with a part of it again and again.
fn repeated(alloc: Global, row: &Row<'_>) -> Result<String, TableError> {
    let mut text = row.text(alloc, "front")?;
    let part = row.text(alloc, "part")?;
    for _ in 0..row.number(alloc, "times")? {
        text.push_str(part.as_str())?;
    }
    text.push_str(text_or_nothing(alloc, row, "back")?.as_str())?;
    Ok(text)
}
