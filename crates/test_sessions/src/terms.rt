//! Terms as rows of a table build them, with what each call makes of them or tells of them.
//!
//! Behaviours and handlers are written in words, operands first: see `test_behaviours`. How a term is built stands at
//! `Script`, what is asked of it at `told`, and the words of a term at `tell_form`.

mod asked;
mod forms;
mod outline;
mod script;

use crate::terms::script::Script;
use std::alloc::Global;
use test_rows::Row;

/// What the lines of a row give of the form that its term ends with.
pub fn told(alloc: Global, row: &Row<'_>, lines: &str) -> anyhow::Result<String> {
    let steps = row.text(alloc, "term")?;
    let mut script = Script::of(alloc, steps.as_str())?;
    Ok(asked::told(&mut script, lines)?)
}
