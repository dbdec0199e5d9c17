//! What JSON-RPC texts post, and the texts of answers.
mod answers;
mod posts;

use crate::texts::answers::{answer, batch, early_answer};
use crate::texts::posts::{long_text, posted, shown_tree, tree_of_params};
use behaviour_tree::Program;
use std::alloc::Global;
use test_programs::with_program;
use test_rows::Row;

/// The types of the program: one with a vector, and the one before it.
const TYPES: &[u8] = b"type Many: void { a*: int } type Same: Many service S { main { } }";

/// What the call of a row gives.
pub fn told(alloc: Global, row: &Row<'_>) -> anyhow::Result<String> {
    with_program(alloc, TYPES, |program| told_by(alloc, row, program))
}

fn told_by(alloc: Global, row: &Row<'_>, program: &Program) -> anyhow::Result<String> {
    match row.text(alloc, "call")?.as_str() {
        "post" => posted(alloc, row.bytes(alloc, "text")?.as_slice()),
        "post_long" => posted(alloc, long_text(alloc, row)?.as_bytes()),
        "params" => tree_of_params(alloc, row.text(alloc, "params")?.as_str()),
        "early" => early_answer(alloc, row.text(alloc, "early")?.as_str()),
        "batch" => batch(alloc, row.number(alloc, "answers")?),
        _ => answer(alloc, row, program),
    }
}

/// What is expected of a row, as `told` writes it.
pub fn wanted(alloc: Global, row: &Row<'_>) -> anyhow::Result<String> {
    let words = row.text(alloc, "gives")?;
    match row.text(alloc, "call")?.as_str() {
        "params" => shown_tree(alloc, words.as_str()),
        _ => Ok(words),
    }
}
