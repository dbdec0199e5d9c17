//! Lines and what they answer: calls of an office and of what it keeps, sessions alone and at the desk of their office,
//! terms, and the handlers of two scopes.
//!
//! What a row is of says which module reads it.
#![tactic(auto)]

mod boxes;
mod calls;
mod keys;
mod scopes;
mod sessions;
mod terms;
mod turns;

use test_rows::{Row, run};

fn main(rt: HostRuntime) -> anyhow::Result<()> {
    run(&rt, expected, given)
}

/// What a row expects. Lines over a program have their answers after them.
fn expected(rt: &HostRuntime, row: &Row<'_>) -> anyhow::Result<String> {
    let lines = if row.has("program") { "does" } else { "gives" };
    Ok(row.text(rt.alloc(), lines)?)
}

/// What the lines of a row give.
fn given(rt: &HostRuntime, row: &Row<'_>) -> anyhow::Result<String> {
    let alloc = rt.alloc();
    let lines = row.text(alloc, "does")?;
    match row.text(alloc, "of")?.as_str() {
        "calls" => calls::told(alloc, row, lines.as_str()),
        "keys" => Ok(keys::told(alloc, lines.as_str())?),
        "boxes" => Ok(boxes::told(alloc, lines.as_str())?),
        "sessions" => sessions::told(alloc, row, lines.as_str()),
        "turns" => turns::told(alloc, row, lines.as_str()),
        "terms" => terms::told(alloc, row, lines.as_str()),
        "scopes" => Ok(scopes::told(alloc, lines.as_str())?),
        _ => Ok(String::from_str(alloc, "of nothing that is known")?),
    }
}
