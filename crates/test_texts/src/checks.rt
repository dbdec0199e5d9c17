//! Tables of texts with what is refused of them, and of programs with what they consist of, found by hand from the
//! rules of the language.
//!
//! A row's text stands between the `before` and the `behind` of its group. Where it is to be `refused`, it has the sign
//! `^`, which stands in no text, in front of the token at whose place it is. Else its `verdict` is given whole, or what
//! a `part` of its program `means`.
mod outline;

use crate::checks::outline::Outline;
use behaviour_tree::Program;
use std::alloc::{AllocError, Global};
use test_programs::with_program;
use test_rows::{Row, TableError};

/// What the row expects.
pub fn expected(alloc: Global, row: &Row<'_>) -> Result<String, TableError> {
    if row.has("refused") {
        return refusal(alloc, row);
    }
    if row.has("part") {
        return row.text(alloc, "means");
    }
    row.text(alloc, "verdict")
}

/// The refusal at the mark.
fn refusal(alloc: Global, row: &Row<'_>) -> Result<String, TableError> {
    let name = row.text(alloc, "refused")?;
    let marked = framed(alloc, row)?;
    let (front, _) = marked.as_str().split_once('^').unwrap_or(("", ""));
    let at = front.len();
    Ok(format!(in alloc; "{name} {at}")?)
}

/// What comes of the row's text: its refusal, or what is told of its program.
pub fn given(alloc: Global, row: &Row<'_>) -> anyhow::Result<String> {
    let marked = framed(alloc, row)?;
    let text = unmarked(alloc, marked.as_str())?;
    let answer = with_program(
        alloc,
        text.as_str().as_bytes(),
        |program| told(alloc, row, program),
    );
    match answer {
        Ok(words) => Ok(words),
        Err(refusal) => Ok(format!(in alloc; "{refusal}")?),
    }
}

/// That the row's text is accepted, or the part of its program that the row asks for.
fn told(alloc: Global, row: &Row<'_>, program: &Program) -> anyhow::Result<String> {
    if !row.has("part") {
        return Ok(String::from_str(alloc, "accepted")?);
    }
    let part = row.text(alloc, "part")?;
    let number = row.number(alloc, "service")?;
    Ok(outlined(alloc, program, part.as_str(), number)?)
}

/// A part of a program as words.
fn outlined(
    alloc: Global,
    program: &Program,
    part: &str,
    number: u32,
) -> Result<String, AllocError> {
    let mut outline = Outline::new(alloc);
    outline.part(program.parts(), part, number as usize);
    outline.finished()
}

/// The row's text in its frame.
fn framed(alloc: Global, row: &Row<'_>) -> Result<String, TableError> {
    let mut text = String::new(alloc);
    for key in ["before", "text", "behind"] {
        if row.has(key) {
            text.push_str(row.text(alloc, key)?.as_str())?;
        }
    }
    Ok(text)
}

/// A text without its mark.
fn unmarked(alloc: Global, marked: &str) -> Result<String, AllocError> {
    let (front, back) = marked.split_once('^').unwrap_or((marked, ""));
    let mut text = String::from_str(alloc, front)?;
    text.push_str(back)?;
    Ok(text)
}
