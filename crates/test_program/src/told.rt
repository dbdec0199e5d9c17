//! What a run left, in words.

use crate::peers::Calling;
use crate::served::Meeting;
use outside_doors::{Return, Try};
use outside_memory_doors::ScriptedPollWire;
use std::alloc::{AllocError, Global};

/// The status and the notes, what the doors count and where none could be opened, and a line for each connection with
/// what was written on it. Then the lines that were written, and what was written to the last peer.
pub fn told(alloc: Global, status: u8, world: &Meeting) -> Result<String, AllocError> {
    let noted = text_of(world.notes.bytes());
    let mut said = format!(in alloc; "status {status}, notes {noted:?}\n")?;
    let counts = world.doors.counts();
    let opened = counts.opened();
    let back = counts.doors_back();
    let wires = counts.wires_back();
    let lost = counts.wires_lost();
    let cut = counts.wires_cut();
    let ended = counts.wires_ended();
    let counted = format!(in alloc;
        "doors {opened} back {back}, wires {wires} lost {lost} cut {cut} ended {ended}"
    )?;
    said.push_str(counted.as_str())?;
    tell_unopened(world.doors.tries(), &mut said)?;
    for wire in world.doors.returned() {
        tell_wire(wire, &mut said)?;
    }
    tell_more(world.output.bytes(), &mut said)?;
    for link in &world.links {
        tell_peer(link, &mut said)?;
    }
    Ok(said)
}

/// Where no door could be opened.
fn tell_unopened(tries: &[Try], said: &mut String) -> Result<(), AllocError> {
    for made in tries {
        if !made.was_opened() {
            said.push_str(", none at ")?;
            said.push_str(made.location())?;
        }
    }
    Ok(())
}

fn tell_peer(link: &Calling, said: &mut String) -> Result<(), AllocError> {
    match link.dialler().last() {
        Some(peer) => tell_more(peer.taken(), said),
        None => Ok(()),
    }
}

/// A line for the bytes, where there are any.
fn tell_more(bytes: &[u8], said: &mut String) -> Result<(), AllocError> {
    if bytes.is_empty() {
        return Ok(());
    }
    said.push_str("\n")?;
    said.push_str(text_of(bytes))
}

fn tell_wire(wire: &Return<ScriptedPollWire>, said: &mut String) -> Result<(), AllocError> {
    said.push_str("\n")?;
    said.push_str(text_of(wire.wire().taken()))
}

fn text_of(bytes: &[u8]) -> &str {
    match str::from_utf8(bytes) {
        Ok(text) => text,
        Err(_) => "no text",
    }
}
