//! The trips of a row.

use outside_links::{Link, NoLink, ScriptedLink, Trip, UnfailingLink};
use outside_traits::CallError;
use std::alloc::{AllocError, Global};
use test_rows::{Row, TableError};

/// Where each trip goes.
const LOCATION: &str = "there";

/// Makes a trip for each word of the row's texts: a line says what they brought, and others what is told of each.
pub fn travelled(alloc: Global, row: &Row<'_>) -> Result<String, TableError> {
    let texts = row.text(alloc, "texts")?;
    if row.has("nobody") {
        return Ok(brought(alloc, &mut NoLink::new(), texts.as_str())?);
    }
    let brings = row.text(alloc, "brings")?;
    if row.has("unfailed") {
        return Ok(unfailed(alloc, brings.as_str(), texts.as_str())?);
    }
    Ok(scripted(alloc, brings.as_str(), texts.as_str())?)
}

fn unfailed(alloc: Global, brings: &str, texts: &str) -> Result<String, AllocError> {
    let mut answers = Vec::new(alloc);
    for word in brings.split(' ') {
        answers.push(Vec::from_slice(alloc, word.as_bytes())?)?;
    }
    let mut link = UnfailingLink::new(alloc, answers);
    let mut lines = brought(alloc, &mut link, texts)?;
    tell(&mut lines, link.trips())?;
    Ok(lines)
}

/// A trip fails where its word is `!`.
fn scripted(alloc: Global, brings: &str, texts: &str) -> Result<String, AllocError> {
    let mut script = Vec::new(alloc);
    for word in brings.split(' ') {
        let reply = if word == "!" {
            None
        } else {
            Some(Vec::from_slice(alloc, word.as_bytes())?)
        };
        script.push(reply)?;
    }
    let mut link = ScriptedLink::new(alloc, script);
    let mut lines = brought(alloc, &mut link, texts)?;
    tell(&mut lines, link.trips())?;
    Ok(lines)
}

/// What the trips of a link brought: the bytes behind `>` each, and `!` of one that failed.
fn brought<L: Link>(alloc: Global, link: &mut L, texts: &str) -> Result<String, AllocError> {
    let mut line = String::new(alloc);
    for text in texts.split(' ') {
        match link.trip(LOCATION, text.as_bytes()) {
            Ok(bytes) => add_bytes(&mut line, '>', &bytes)?,
            Err(CallError::Failed) => line.push('!')?,
            Err(CallError::Memory(cause)) => return Err(cause),
        }
    }
    Ok(line)
}

/// What a link tells of its trips, a line for each: where to and with which text, and what it brought.
fn tell(lines: &mut String, trips: &[Trip]) -> Result<(), AllocError> {
    for trip in trips {
        lines.push('\n')?;
        lines.push_str(trip.location())?;
        add_bytes(lines, ':', trip.text())?;
        match trip.came() {
            None => lines.push('!')?,
            Some(bytes) => add_bytes(lines, '>', bytes)?,
        }
    }
    Ok(())
}

/// Bytes behind a sign.
fn add_bytes(line: &mut String, sign: char, bytes: &[u8]) -> Result<(), AllocError> {
    line.push(sign)?;
    for byte in bytes {
        line.push(char::from(*byte))?;
    }
    Ok(())
}
