//! Calls of an office line by line, with what each of them answers.
//!
//! A row has a program, and lines with a call and its answer each: `0 take 0 => 0 0 void`. How calls are written stands
//! at `played`, values, messages and outcomes in `test_calls`, and programs of many services at `program_text`.
mod play;
mod posts;
mod program;
mod sessions;
mod workers;

use crate::calls::play::played;
use crate::calls::program::program_text;
use behaviour_tree::Program;
use office_plain::Office;
use std::alloc::Global;
use test_programs::with_program;
use test_rows::Row;

/// What the office of a row's program answers to the lines.
pub fn told(alloc: Global, row: &Row<'_>, lines: &str) -> anyhow::Result<String> {
    let text = program_text(alloc, row)?;
    with_program(alloc, text.as_slice(), |program| {
        told_by(alloc, program, lines)
    })
}

/// The same of a program. Its history is what is let go of the office: that of the whole office costs the proof more.
fn told_by(alloc: Global, program: &Program, lines: &str) -> anyhow::Result<String> {
    let copy = program.again()?;
    let mut office = Office::new(alloc, copy)?;
    let told = played(alloc, &mut office, lines);
    drop(office.into_history());
    Ok(told?)
}
