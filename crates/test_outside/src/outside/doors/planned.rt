//! The doors of a row.

use crate::outside::doors::told::{
    tell_counts, tell_doors, tell_scripted, tell_tries, tell_unfailed,
};
use crate::outside::doors::visits::visit_all;
use outside_doors::Doors;
use outside_memory_doors::{ScriptedDoor, ScriptedDoors, UnfailingDoor, UnfailingDoors};
use std::alloc::{AllocError, Global};
use test_rows::{Row, TableError};

/// For how many bytes a wire has room.
const ROOM: usize = 4;

/// Which calls of a wire come too early, where its word ends in `~`, and where it does not.
const EARLY: &[u64] = &[0, 3];

const NEVER: &[u64] = &[];

/// Visits the doors of a row, a line each, at the locations that are opened, and says what came and what is told then.
pub fn done(alloc: Global, row: &Row<'_>) -> Result<String, TableError> {
    let mut said = String::new(alloc);
    if row.has("quiet") {
        let quiet = u64::from(row.number(alloc, "quiet")?);
        unfailed(alloc, row, quiet, &mut said)?;
    } else {
        scripted(alloc, row, &mut said)?;
    }
    Ok(said)
}

fn unfailed(alloc: Global, row: &Row<'_>, quiet: u64, said: &mut String) -> Result<(), TableError> {
    let mut doors = UnfailingDoors::new(alloc);
    expect_unfailed(alloc, row, quiet, &mut doors)?;
    visit_row(alloc, row, &mut doors, said)?;
    Ok(told_unfailed(alloc, &doors, said)?)
}

fn scripted(alloc: Global, row: &Row<'_>, said: &mut String) -> Result<(), TableError> {
    let mut doors = ScriptedDoors::new(alloc);
    expect_scripted(alloc, row, &mut doors)?;
    visit_row(alloc, row, &mut doors, said)?;
    Ok(told_scripted(alloc, &doors, said)?)
}

fn visit_row<D: Doors>(
    alloc: Global,
    row: &Row<'_>,
    doors: &mut D,
    said: &mut String,
) -> Result<(), TableError> {
    let knocks = row.number(alloc, "knocks")?;
    let locations = row.text(alloc, "opens")?;
    Ok(visit_all(doors, locations.as_str(), knocks, said)?)
}

fn told_unfailed(
    alloc: Global,
    doors: &UnfailingDoors,
    said: &mut String,
) -> Result<(), AllocError> {
    tell_counts(alloc, doors.counts(), doors.faults(), said)?;
    tell_tries(doors.tries(), said)?;
    tell_doors(alloc, doors.returned_doors(), said)?;
    tell_unfailed(alloc, doors.returned(), said)
}

fn told_scripted(
    alloc: Global,
    doors: &ScriptedDoors,
    said: &mut String,
) -> Result<(), AllocError> {
    tell_counts(alloc, doors.counts(), doors.faults(), said)?;
    tell_tries(doors.tries(), said)?;
    tell_doors(alloc, doors.returned_doors(), said)?;
    tell_scripted(alloc, doors.returned(), said)
}

/// Doors of which each word is a connection with these bytes, whose first and fourth calls come too early where a `~`
/// stands behind them.
fn expect_unfailed(
    alloc: Global,
    row: &Row<'_>,
    quiet: u64,
    doors: &mut UnfailingDoors,
) -> Result<(), TableError> {
    let lines = row.text(alloc, "doors")?;
    for line in lines.as_str().split('\n') {
        doors.expect(unfailing_door(alloc, line, quiet)?)?;
    }
    Ok(())
}

fn unfailing_door(alloc: Global, line: &str, quiet: u64) -> Result<UnfailingDoor, AllocError> {
    let mut door = UnfailingDoor::new(alloc, quiet);
    for word in line.split(' ') {
        let (bytes, early) = early_calls(word);
        door.expect(bytes.as_bytes(), ROOM, early)?;
    }
    Ok(door)
}

/// Doors of which each word is a visit. A door fails to open where its line is `!`.
fn expect_scripted(
    alloc: Global,
    row: &Row<'_>,
    doors: &mut ScriptedDoors,
) -> Result<(), TableError> {
    let lines = row.text(alloc, "doors")?;
    for line in lines.as_str().split('\n') {
        if line == "!" {
            doors.expect_failure()?;
        } else {
            doors.expect(scripted_door(alloc, line)?)?;
        }
    }
    Ok(())
}

fn scripted_door(alloc: Global, line: &str) -> Result<ScriptedDoor, AllocError> {
    let mut door = ScriptedDoor::new(alloc);
    for word in line.split(' ') {
        expect_visit(&mut door, word)?;
    }
    Ok(door)
}

/// `.` is nobody, `!` a failure, and each other word a connection.
fn expect_visit(door: &mut ScriptedDoor, word: &str) -> Result<(), AllocError> {
    match word {
        "." => door.expect_nobody(),
        "!" => door.expect_failure(),
        _ => expect_connection(door, word),
    }
}

/// A connection with the bytes of a word. Its first and fourth calls come too early where the word ends in `~`; of the
/// others the second fails where a `!` stands before that, and each write where a `|` does.
fn expect_connection(door: &mut ScriptedDoor, word: &str) -> Result<(), AllocError> {
    let (word, early) = early_calls(word);
    if let Some(bytes) = word.strip_suffix("!") {
        return door.expect(bytes.as_bytes(), ROOM, 2, &[1], early);
    }
    if let Some(bytes) = word.strip_suffix("|") {
        return door.expect(bytes.as_bytes(), 0, 2, &[], early);
    }
    door.expect(word.as_bytes(), ROOM, 2, &[], early)
}

/// The rest of a word, and which calls of its wire come too early.
fn early_calls(word: &str) -> (&str, &[u64]) {
    match word.strip_suffix("~") {
        Some(rest) => (rest, EARLY),
        None => (word, NEVER),
    }
}
