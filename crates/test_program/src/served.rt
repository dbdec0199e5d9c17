//! How the run of a row ends.

ghost use Rattle.std.specs.Prelude.{◌<◌, IfOk, length};

use crate::clients::{ROOM, doors};
use crate::peers::{Calling, links};
use crate::told::told;
use jolie_main::{World, run};
use outside_memory_doors::ScriptedDoors;
use outside_traits::{Script, ScriptedFiles, ScriptedSink, ScriptedSource};
use std::alloc::Global;
use test_rows::Row;

/// Files and streams in memory, doors at which clients come in, and a link to peers.
pub type Meeting = World<
    ScriptedFiles,
    ScriptedSource,
    ScriptedSink,
    ScriptedSink,
    ScriptedDoors,
    Calling,
>;

/// The end of the run of a row: its status and its notes, what the doors count, and what was written on each
/// connection; then its lines and what its last peer was asked, where there is any.
pub fn served(alloc: Global, row: &Row<'_>) -> anyhow::Result<String> {
    let words = words(alloc, row)?;
    let mut world = world(alloc, row)?;
    let ended = run(alloc, &words, &mut world)?;
    Ok(told(alloc, ended.status, &world)?)
}

/// The world of a row.
fn world(alloc: Global, row: &Row<'_>) -> anyhow::Result<Box<Meeting>>
    ensures link { IfOk result (λ world. 0 < length world.value.links.items) }
{
    let files = files(alloc, row)?;
    let input = input(alloc, row)?;
    let output = ScriptedSink::new(alloc, ROOM, ROOM, Script::new(alloc, &[])?)?;
    let notes = ScriptedSink::new(alloc, ROOM, ROOM, script(alloc, row)?)?;
    let doors = doors(alloc, row)?;
    let links = links(alloc, row)?;
    let world = World {
        files,
        input,
        output,
        notes,
        doors,
        links,
    };
    Ok(Box::new(alloc, world)?)
}

/// Which write of the notes fails.
fn script(alloc: Global, row: &Row<'_>) -> anyhow::Result<Script> {
    if row.has("note_fails_at") {
        let failing = u64::from(row.number(alloc, "note_fails_at")?);
        return Ok(Script::new(alloc, &[failing])?);
    }
    Ok(Script::new(alloc, &[])?)
}

/// The lines of the row, where it has any.
fn input(alloc: Global, row: &Row<'_>) -> anyhow::Result<ScriptedSource> {
    let script = Script::new(alloc, &[])?;
    if !row.has("lines") {
        return Ok(ScriptedSource::new(alloc, b"", 1, script)?);
    }
    let lines = row.bytes(alloc, "lines")?;
    Ok(ScriptedSource::new(alloc, lines.as_slice(), ROOM, script)?)
}

fn files(alloc: Global, row: &Row<'_>) -> anyhow::Result<ScriptedFiles> {
    let content = row.bytes(alloc, "file")?;
    Ok(ScriptedFiles::new(alloc, content.as_slice(), Script::new(alloc, &[])?)?)
}

/// `serve` over the file, or `run` where the row has lines, with the options of the row.
fn words(alloc: Global, row: &Row<'_>) -> anyhow::Result<Vec<String>> {
    let mut words = Vec::new(alloc);
    let command = if row.has("lines") { "run" } else { "serve" };
    words.push(String::from_str(alloc, command)?)?;
    words.push(String::from_str(alloc, "served.ol")?)?;
    if row.has("options") {
        for word in row.text(alloc, "options")?.as_str().split(' ') {
            words.push(String::from_str(alloc, word)?)?;
        }
    }
    Ok(words)
}
