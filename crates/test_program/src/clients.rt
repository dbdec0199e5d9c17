//! The doors of a row, and who comes in at them.

use outside_memory_doors::{ScriptedDoor, ScriptedDoors};
use std::alloc::Global;
use test_rows::{Row, TableError};

/// For how many bytes a wire has room.
pub const ROOM: usize = 100_000;

/// No call has this number.
pub const NEVER: u64 = 1 << 60;

/// The fields of a connection: its bytes, which of its calls fails, and which comes too early.
struct Fields {
    bytes: &'static str,
    fails: &'static str,
    early: &'static str,
}

const A: Fields = Fields {
    bytes: "a",
    fails: "a_fails",
    early: "a_early",
};

const B: Fields = Fields {
    bytes: "b",
    fails: "b_fails",
    early: "b_early",
};

const C: Fields = Fields {
    bytes: "c",
    fails: "c_fails",
    early: "c_early",
};

const D: Fields = Fields {
    bytes: "d",
    fails: "d_fails",
    early: "d_early",
};

/// A door for each line: each word is what a try at it comes to. A door fails to open where its line is `!`.
pub fn doors(alloc: Global, row: &Row<'_>) -> Result<ScriptedDoors, TableError> {
    let lines = row.text(alloc, "doors")?;
    let mut doors = ScriptedDoors::new(alloc);
    for line in lines.as_str().split('\n') {
        if line == "!" {
            doors.expect_failure()?;
        } else {
            doors.expect(door(alloc, row, line)?)?;
        }
    }
    Ok(doors)
}

fn door(alloc: Global, row: &Row<'_>, line: &str) -> Result<ScriptedDoor, TableError> {
    let mut door = ScriptedDoor::new(alloc);
    for word in line.split(' ') {
        expect(alloc, row, &mut door, word)?;
    }
    Ok(door)
}

/// `.` is nobody, `!` a failure, and another word the connection of that name.
fn expect(
    alloc: Global,
    row: &Row<'_>,
    door: &mut ScriptedDoor,
    word: &str,
) -> Result<(), TableError> {
    match word {
        "." => Ok(door.expect_nobody()?),
        "!" => Ok(door.expect_failure()?),
        "a" => client(alloc, row, door, &A),
        "b" => client(alloc, row, door, &B),
        "c" => client(alloc, row, door, &C),
        _ => client(alloc, row, door, &D),
    }
}

/// A connection with the bytes of its field, of which the call of a number fails or comes too early where the row has it.
fn client(
    alloc: Global,
    row: &Row<'_>,
    door: &mut ScriptedDoor,
    fields: &Fields,
) -> Result<(), TableError> {
    let bytes = row.bytes(alloc, fields.bytes)?;
    let failing = number(alloc, row, fields.fails, NEVER)?;
    let early = number(alloc, row, fields.early, NEVER)?;
    let piece = number(alloc, row, "piece", ROOM as u64)?;
    let piece = (piece as usize).max(1);
    Ok(door.expect(bytes.as_slice(), ROOM, piece, &[failing], &[early])?)
}

/// A number of the row, or another where it lacks it.
pub fn number(
    alloc: Global,
    row: &Row<'_>,
    key: &'static str,
    other: u64,
) -> Result<u64, TableError> {
    if row.has(key) {
        return Ok(u64::from(row.number(alloc, key)?));
    }
    Ok(other)
}
