//! Sessions that take turns at the desk of their office, line by line, with what each turn comes to.
//!
//! A row has a program, the budget of its session, if it wants one the message that comes in before the session is
//! seated, and lines, each with its answer after it: `turn 0 => did 0 In 0`. How lines are written stands at `played`.
mod line;
mod words;

use crate::turns::line::played;
use behaviour_tree::Program;
use office_core::Posted;
use std::alloc::Global;
use test_calls::read_posted;
use test_programs::with_program;
use test_rows::Row;
use test_seats::seated;

/// What the session of a row answers to the lines.
pub fn told(alloc: Global, row: &Row<'_>, lines: &str) -> anyhow::Result<String> {
    let text = row.bytes(alloc, "program")?;
    let budget = row.number(alloc, "budget")?;
    with_program(alloc, text.as_slice(), |program| {
        told_by(alloc, program, budget, row, lines)
    })
}

/// What the first session of a program answers to the lines. Its history is what is let go of the seat: that of the
/// whole seat costs the proof more.
fn told_by(
    alloc: Global,
    program: &Program,
    budget: u32,
    row: &Row<'_>,
    lines: &str,
) -> anyhow::Result<String> {
    let first = first_of(alloc, row)?;
    let Some(mut seat) = seated(alloc, program, first, budget)? else {
        return Ok(String::from_str(alloc, "nobody is born")?);
    };
    let told = played(alloc, &mut seat, lines);
    drop(seat.into_history());
    Ok(told?)
}

/// The message that a row has come in first, if it has one.
fn first_of(alloc: Global, row: &Row<'_>) -> anyhow::Result<Option<Posted>> {
    if !row.has("first") {
        return Ok(None);
    }
    let words = row.text(alloc, "first")?;
    Ok(Some(read_posted(alloc, words.as_str())?))
}
