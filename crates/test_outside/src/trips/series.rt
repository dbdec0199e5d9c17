//! Several trips of one link.

use crate::trips::travels::{back_from, shown};
use http_link::HttpLink;
use outside_dials::{Dial, ScriptedDial, UnfailingDial};
use outside_traits::{Script, ScriptedWire, UnfailingWire};
use std::alloc::{AllocError, Global};
use test_rows::{Row, TableError};

/// For how many bytes a wire has room.
const ROOM: usize = 1000;

/// How many bytes a wire gives at once.
const PIECE: usize = 1000;

/// What three trips of a link come to whose dialler has two wires, which bring the row's first and second bytes.
pub(crate) fn given(alloc: Global, row: &Row<'_>) -> Result<String, TableError> {
    let first = row.bytes(alloc, "first")?;
    let second = row.bytes(alloc, "second")?;
    if row.has("fails") {
        return Ok(scripted(alloc, first.as_slice(), second.as_slice())?);
    }
    Ok(unfailed(alloc, first.as_slice(), second.as_slice())?)
}

/// Over a dialler that fails behind the second.
fn unfailed(alloc: Global, first: &[u8], second: &[u8]) -> Result<String, AllocError> {
    let mut wires = Vec::new(alloc);
    wires.push(UnfailingWire::new(alloc, first, ROOM)?)?;
    wires.push(UnfailingWire::new(alloc, second, ROOM)?)?;
    three_trips(
        alloc,
        &mut HttpLink::new(alloc, UnfailingDial::new(alloc, wires)),
    )
}

/// Over one that fails between the two.
fn scripted(alloc: Global, first: &[u8], second: &[u8]) -> Result<String, AllocError> {
    let mut script = Vec::new(alloc);
    script.push(Some(ScriptedWire::new(alloc, first, ROOM, PIECE, Script::new(alloc, &[])?)?))?;
    script.push(None)?;
    script.push(Some(ScriptedWire::new(alloc, second, ROOM, PIECE, Script::new(alloc, &[])?)?))?;
    three_trips(
        alloc,
        &mut HttpLink::new(alloc, ScriptedDial::new(alloc, script)),
    )
}

fn three_trips<D: Dial>(alloc: Global, link: &mut HttpLink<D>) -> Result<String, AllocError> {
    let mut text = String::new(alloc);
    for _ in 0..3_u32 {
        let back = back_from(link)?;
        let back = shown(alloc, &back, false)?;
        text.push_str(back.as_str())?;
        text.push('\n')?;
    }
    Ok(text)
}
