//! How runs end, and what they write.

ghost use Rattle.std.specs.Prelude.{◌<◌, length};

use crate::objects::{Memory, words, world};
use jolie_main::run;
use outside_links::Trip;
use std::alloc::{AllocError, Global};
use test_rows::Row;

/// How the run of a row ends: its status, its output and its notes.
pub fn ended(alloc: Global, row: &Row<'_>) -> anyhow::Result<String> {
    let mut world = world(alloc, row)?;
    let status = status_of(alloc, row, &mut world)?;
    told(alloc, row, status, &world)
}

/// The trips that the link of a row makes in its run, one a line: where to, and the text.
pub fn travelled(alloc: Global, row: &Row<'_>) -> anyhow::Result<String> {
    let mut world = world(alloc, row)?;
    status_of(alloc, row, &mut world)?;
    match world.links.first() {
        Some(link) => trips_words(alloc, link.trips()),
        None => Ok(String::new(alloc)),
    }
}

fn trips_words(alloc: Global, trips: &[Trip]) -> anyhow::Result<String> {
    let mut words = String::new(alloc);
    for trip in trips {
        words.push_str(trip.location())?;
        words.push_str(" ")?;
        let text = text_of(alloc, trip.text())?;
        words.push_str(text.as_str())?;
        words.push_str("\n")?;
    }
    Ok(words)
}

/// The status of the run of a row.
fn status_of(alloc: Global, row: &Row<'_>, world: &mut Memory) -> anyhow::Result<u32>
    requires link { 0 < length world.old.links.items }
{
    let words = words(alloc, row)?;
    let ended = run(alloc, &words, world)?;
    Ok(u32::from(ended.status))
}

fn told(alloc: Global, row: &Row<'_>, status: u32, world: &Memory) -> anyhow::Result<String> {
    let written = written(alloc, row, world.output.bytes())?;
    let noted = text_of(alloc, world.notes.bytes())?;
    Ok(end_words(alloc, status, written.as_str(), noted.as_str())?)
}

/// The output of a run, as far as the row speaks of it.
fn written(alloc: Global, row: &Row<'_>, bytes: &[u8]) -> anyhow::Result<String> {
    let all = text_of(alloc, bytes)?;
    match row.text(alloc, "call")?.as_str() {
        "answer" => Ok(String::from_str(alloc, all.trim_end())?),
        "beginning" => beginning(alloc, row, all),
        _ => Ok(all),
    }
}

/// What the row gives of the output where the output begins with it, else all of it.
fn beginning(alloc: Global, row: &Row<'_>, all: String) -> anyhow::Result<String> {
    let beginning = row.text(alloc, "output")?;
    if all.starts_with(beginning.as_str()) {
        Ok(beginning)
    } else {
        Ok(all)
    }
}

fn text_of(alloc: Global, bytes: &[u8]) -> Result<String, AllocError> {
    match str::from_utf8(bytes) {
        Ok(text) => String::from_str(alloc, text),
        Err(_) => String::from_str(alloc, "no text"),
    }
}

fn end_words(alloc: Global, status: u32, written: &str, noted: &str) -> Result<String, AllocError> {
    format!(in alloc; "status {status}, output {written:?}, notes {noted:?}")
}

/// What is expected of the run of a row, as `ended` writes it.
pub fn expected_end(alloc: Global, row: &Row<'_>) -> anyhow::Result<String> {
    let status = row.number(alloc, "status")?;
    let written = row.text(alloc, "output")?;
    let noted = row.text(alloc, "notes")?;
    Ok(end_words(alloc, status, written.as_str(), noted.as_str())?)
}
