//! Rows of wires.

use crate::outside::objects::calls::Calls;
use outside_traits::{Failed, Script, ScriptedWire, UnfailingWire, Wire};
use std::alloc::{AllocError, Global};
use test_rows::{Row, TableError};

/// For how many bytes a wire has room.
const ROOM: usize = 4;

/// Does what a row does: `read`, `close`, and each other word is written.
pub fn called(alloc: Global, row: &Row<'_>, calls: &mut Calls) -> Result<(), TableError> {
    let content = row.bytes(alloc, "content")?;
    let content = content.as_slice();
    let does = row.text(alloc, "does")?;
    if row.has("fails") {
        let failing = u64::from(row.number(alloc, "fails")?);
        return Ok(scripted(alloc, failing, content, does.as_str(), calls)?);
    }
    Ok(unfailed(alloc, content, does.as_str(), calls)?)
}

fn scripted(
    alloc: Global,
    failing: u64,
    content: &[u8],
    does: &str,
    calls: &mut Calls,
) -> Result<(), AllocError> {
    let script = Script::new(alloc, &[failing])?;
    let mut wire = ScriptedWire::new(alloc, content, ROOM, 2, script)?;
    do_each(&mut wire, does, calls)?;
    calls.moved(wire.given())?;
    calls.went(wire.taken())?;
    calls.told(wire.calls())
}

fn unfailed(
    alloc: Global,
    content: &[u8],
    does: &str,
    calls: &mut Calls,
) -> Result<(), AllocError> {
    let mut wire = UnfailingWire::new(alloc, content, ROOM)?;
    do_each(&mut wire, does, calls)?;
    calls.moved(wire.given())?;
    calls.went(wire.taken())?;
    calls.told(wire.calls())
}

fn do_each<W: Wire>(wire: &mut W, does: &str, calls: &mut Calls) -> Result<(), AllocError> {
    let mut buffer = [0; 3];
    let mut number = 0_u32;
    for word in does.split(' ') {
        if word == "close" {
            wire.close();
        } else {
            let answer = match word {
                "read" => wire.read(&mut buffer),
                _ => wire.write(word.as_bytes()),
            };
            match answer {
                Ok(count) => calls.gave(count)?,
                Err(Failed) => calls.failed(number)?,
            }
        }
        number = number.wrapping_add(1);
    }
    Ok(())
}
