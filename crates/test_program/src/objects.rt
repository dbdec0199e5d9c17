//! The world in memory that a row describes.

ghost use Rattle.std.specs.Prelude.{◌<◌, IfOk, length};

use jolie_main::World;
use outside_links::ScriptedLink;
use outside_memory_doors::UnfailingDoors;
use outside_traits::{Script, ScriptedFiles, ScriptedSink, ScriptedSource};
use std::alloc::Global;
use test_rows::{Row, TableError};

/// No call has this number.
const NEVER: u64 = 1 << 60;

/// Longer than each input and each output.
const AT_ONCE: u32 = 100_000;

/// Files, streams and a link in memory, and no doors.
pub type Memory = World<
    ScriptedFiles,
    ScriptedSource,
    ScriptedSink,
    ScriptedSink,
    UnfailingDoors,
    ScriptedLink,
>;

/// The world of a row.
pub fn world(alloc: Global, row: &Row<'_>) -> anyhow::Result<Box<Memory>>
    ensures link { IfOk result (λ world. 0 < length world.value.links.items) }
{
    let files = files(alloc, row)?;
    let input = source(alloc, row)?;
    let output = sink(alloc, row, "write_fails_at")?;
    let notes = sink(alloc, row, "note_fails_at")?;
    let links = links(alloc, row)?;
    let doors = UnfailingDoors::new(alloc);
    let world = World {
        files,
        input,
        output,
        notes,
        doors,
        links,
    };
    Ok(Box::new(alloc, world)?)
}

/// The words of the row's command over its operand, or over the file `twice.ol`, with the row's options.
pub fn words(alloc: Global, row: &Row<'_>) -> anyhow::Result<Vec<String>> {
    let mut words = Vec::new(alloc);
    words.push(row.text(alloc, "command")?)?;
    words.push(operand(alloc, row)?)?;
    if let Some(options) = text(alloc, row, "options")? {
        for word in options.as_str().split(' ') {
            words.push(String::from_str(alloc, word)?)?;
        }
    }
    Ok(words)
}

fn operand(alloc: Global, row: &Row<'_>) -> anyhow::Result<String> {
    match text(alloc, row, "operand")? {
        Some(operand) => Ok(operand),
        None => Ok(String::from_str(alloc, "twice.ol")?),
    }
}

/// One link, whose first trip brings back what the row says, or fails.
fn links(alloc: Global, row: &Row<'_>) -> anyhow::Result<Vec<ScriptedLink>>
    ensures { IfOk result (λ links. 0 < length links.items) }
{
    let script = trips(alloc, row)?;
    let mut links = Vec::new(alloc);
    links.push(ScriptedLink::new(alloc, script))?;
    Ok(links)
}

fn trips(alloc: Global, row: &Row<'_>) -> anyhow::Result<Vec<Option<Vec<u8>>>> {
    let mut script = Vec::new(alloc);
    script.push(comes(alloc, row)?)?;
    Ok(script)
}

fn comes(alloc: Global, row: &Row<'_>) -> anyhow::Result<Option<Vec<u8>>> {
    match row.bytes(alloc, "comes") {
        Ok(bytes) => Ok(Some(bytes)),
        Err(TableError::Missing(_)) => Ok(None),
        Err(error) => Err(error.into()),
    }
}

fn files(alloc: Global, row: &Row<'_>) -> anyhow::Result<ScriptedFiles> {
    let script = script(alloc, row, "file_fails_at")?;
    let content = content(alloc, row)?;
    Ok(ScriptedFiles::new(alloc, content.as_slice(), script)?)
}

fn content(alloc: Global, row: &Row<'_>) -> anyhow::Result<Vec<u8>> {
    match number(alloc, row, "blanks")? {
        Some(count) => blanks(alloc, count),
        None => Ok(row.bytes(alloc, "file")?),
    }
}

fn blanks(alloc: Global, count: u32) -> anyhow::Result<Vec<u8>> {
    let mut blanks = Vec::new(alloc);
    for _ in 0..count {
        blanks.push(b' ')?;
    }
    Ok(blanks)
}

fn source(alloc: Global, row: &Row<'_>) -> anyhow::Result<ScriptedSource> {
    let script = script(alloc, row, "read_fails_at")?;
    let input = row.bytes(alloc, "input")?;
    let piece = piece(alloc, row)?;
    Ok(ScriptedSource::new(alloc, input.as_slice(), piece.max(1), script)?)
}

fn sink(alloc: Global, row: &Row<'_>, fails_at: &'static str) -> anyhow::Result<ScriptedSink> {
    let script = script(alloc, row, fails_at)?;
    let piece = piece(alloc, row)?;
    Ok(ScriptedSink::new(alloc, 100_000, piece.max(1), script)?)
}

/// How many bytes go at a time.
fn piece(alloc: Global, row: &Row<'_>) -> anyhow::Result<usize> {
    Ok(number(alloc, row, "piece")?.unwrap_or(AT_ONCE) as usize)
}

/// The script of an object of which a call fails, if the row says which.
fn script(alloc: Global, row: &Row<'_>, fails_at: &'static str) -> anyhow::Result<Script> {
    let failing = match number(alloc, row, fails_at)? {
        Some(call) => u64::from(call),
        None => NEVER,
    };
    Ok(Script::new(alloc, &[failing])?)
}

/// A number of the row, if it has it.
fn number(alloc: Global, row: &Row<'_>, key: &'static str) -> Result<Option<u32>, TableError> {
    match row.number(alloc, key) {
        Ok(number) => Ok(Some(number)),
        Err(TableError::Missing(_)) => Ok(None),
        Err(error) => Err(error),
    }
}

/// A text of the row, if it has it.
fn text(alloc: Global, row: &Row<'_>, key: &'static str) -> Result<Option<String>, TableError> {
    match row.text(alloc, key) {
        Ok(text) => Ok(Some(text)),
        Err(TableError::Missing(_)) => Ok(None),
        Err(error) => Err(error),
    }
}
