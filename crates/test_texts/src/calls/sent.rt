//! Calls that go out.

use behaviour_tree::Program;
use jsonrpc_calls::{call_text, console_line, location_called};
use office_core::Outgoing;
use std::alloc::Global;
use test_rows::Row;
use test_values::read_tree;

/// The text of the call of a row.
pub fn text_sent(alloc: Global, row: &Row<'_>, program: &Program) -> anyhow::Result<String> {
    let out = outgoing(alloc, row)?;
    let text = call_text(alloc, &out, program)?;
    Ok(String::from_str(alloc, text.as_str())?)
}

/// The location that the call of a row is made to.
pub fn location_of(alloc: Global, row: &Row<'_>, program: &Program) -> anyhow::Result<String> {
    let out = outgoing(alloc, row)?;
    Ok(String::from_str(alloc, location_called(program, &out))?)
}

/// The line of the value of a row on the console.
pub fn line_of(alloc: Global, row: &Row<'_>) -> anyhow::Result<String> {
    let words = row.text(alloc, "sent")?;
    let value = read_tree(alloc, words.as_str())?;
    let line = console_line(alloc, value.root())?;
    Ok(String::from_str(alloc, line.as_str())?)
}

/// The call of a row, which a session of the first service sends; it wants an answer where the row says `wants`.
pub fn outgoing(alloc: Global, row: &Row<'_>) -> anyhow::Result<Outgoing> {
    let words = row.text(alloc, "sent")?;
    Ok(Outgoing {
        session: row.number(alloc, "session")?,
        service: 0,
        call: row.number(alloc, "number")?,
        port: row.number(alloc, "port")?,
        op: row.number(alloc, "op")?,
        wants: row.has("wants"),
        value: read_tree(alloc, words.as_str())?,
    })
}
