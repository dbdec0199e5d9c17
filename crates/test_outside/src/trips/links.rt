//! Links over one wire in memory.

use http_link::HttpLink;
use outside_dials::{ScriptedDial, UnfailingDial};
use outside_traits::{Script, ScriptedWire, UnfailingWire};
use std::alloc::{AllocError, Global};

/// For how many bytes a wire has room.
const ROOM: usize = 1000;

/// Over a wire that gives these bytes and takes what is written, all at once.
pub(crate) fn unfailing_link(
    alloc: Global,
    sent: &[u8],
) -> Result<HttpLink<UnfailingDial>, AllocError> {
    let mut wires = Vec::new(alloc);
    wires.push(UnfailingWire::new(alloc, sent, ROOM)?)?;
    Ok(HttpLink::new(alloc, UnfailingDial::new(alloc, wires)))
}

/// Over a wire that gives and takes so many bytes a call, and fails at these calls.
pub(crate) fn scripted_link(
    alloc: Global,
    sent: &[u8],
    piece: usize,
    failing: &[u64],
) -> Result<HttpLink<ScriptedDial>, AllocError> {
    let mut script = Vec::new(alloc);
    let plan = Script::new(alloc, failing)?;
    script.push(Some(ScriptedWire::new(alloc, sent, ROOM, piece.max(1), plan)?))?;
    Ok(HttpLink::new(alloc, ScriptedDial::new(alloc, script)))
}
