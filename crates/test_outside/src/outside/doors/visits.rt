//! What comes in at doors.

use outside_doors::{Accept, Door, Doors};
use outside_polling::{PollWire, Ready};
use outside_traits::Failed;
use std::alloc::AllocError;

/// How many reads there are of a connection at most.
const READS: u32 = 20;

/// How many writes there are of a connection at most.
const WRITES: u32 = 3;

/// Opens a door at each location, knocks at it so often, answers each connection with `ok`, and gives all back. It says
/// what it met: `>` and the bytes of a connection, `~` where it could move none yet, `.` where nobody had come, `#`
/// where nobody comes any more, and `!` of what failed.
pub fn visit_all<D: Doors>(
    doors: &mut D,
    locations: &str,
    knocks: u32,
    said: &mut String,
) -> Result<(), AllocError> {
    for location in locations.split(' ') {
        said.push_str(location)?;
        said.push(':')?;
        match doors.open(location) {
            Ok(door) => visit(doors, door, knocks, said)?,
            Err(Failed) => said.push('!')?,
        }
        said.push('\n')?;
    }
    Ok(())
}

fn visit<D: Doors>(
    doors: &mut D,
    door: D::D,
    knocks: u32,
    said: &mut String,
) -> Result<(), AllocError> {
    let mut door = door;
    for _ in 0..knocks {
        accept(doors, &mut door, said)?;
    }
    doors.door_back(door);
    Ok(())
}

fn accept<D: Doors>(doors: &mut D, door: &mut D::D, said: &mut String) -> Result<(), AllocError> {
    match door.try_accept() {
        Ok(Accept::Came(wire)) => answer(doors, wire, said),
        Ok(Accept::NotYet) => {
            door.rest();
            said.push('.')
        }
        Ok(Accept::Closed) => said.push('#'),
        Err(Failed) => said.push('!'),
    }
}

fn answer<D: Doors>(
    doors: &mut D,
    wire: <D::D as Door>::W,
    said: &mut String,
) -> Result<(), AllocError> {
    let mut wire = wire;
    talk(&mut wire, said)?;
    doors.wire_back(wire);
    Ok(())
}

fn talk<W: PollWire>(wire: &mut W, said: &mut String) -> Result<(), AllocError> {
    said.push('>')?;
    read_all(wire, said)?;
    write_once(wire, said)?;
    wire.close();
    Ok(())
}

fn read_all<W: PollWire>(wire: &mut W, said: &mut String) -> Result<(), AllocError> {
    let mut buffer = [0; 3];
    for _ in 0..READS {
        match wire.try_read(&mut buffer) {
            Ok(Ready::Done(0)) => break,
            Ok(Ready::Done(count)) => add_bytes(said, &buffer[..count])?,
            Ok(Ready::NotYet) => said.push('~')?,
            Err(Failed) => said.push('!')?,
        }
    }
    Ok(())
}

/// Writes until some bytes went out or a write failed.
fn write_once<W: PollWire>(wire: &mut W, said: &mut String) -> Result<(), AllocError> {
    for _ in 0..WRITES {
        match wire.try_write(b"ok") {
            Ok(Ready::Done(_)) => break,
            Ok(Ready::NotYet) => said.push('~')?,
            Err(Failed) => return said.push('!'),
        }
    }
    Ok(())
}

/// Adds bytes as a text.
pub fn add_bytes(said: &mut String, bytes: &[u8]) -> Result<(), AllocError> {
    for byte in bytes {
        said.push(char::from(*byte))?;
    }
    Ok(())
}
