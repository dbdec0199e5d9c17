//! What doors tell behind all.

use crate::outside::doors::visits::add_bytes;
use outside_doors::{Counts, DoorCounts, Return, Try};
use outside_memory_doors::{ScriptedPollWire, UnfailingPollWire};
use std::alloc::{AllocError, Global};

/// The counts, in a line.
pub fn tell_counts(
    alloc: Global,
    counts: &Counts,
    faults: u64,
    said: &mut String,
) -> Result<(), AllocError> {
    add_count(alloc, "opened", counts.opened(), said)?;
    add_count(alloc, "back", counts.doors_back(), said)?;
    add_count(alloc, "ended", counts.doors_ended(), said)?;
    add_count(alloc, "given", counts.wires_given(), said)?;
    add_count(alloc, "wires back", counts.wires_back(), said)?;
    add_count(alloc, "lost", counts.wires_lost(), said)?;
    add_count(alloc, "cut", counts.wires_cut(), said)?;
    add_count(alloc, "wires ended", counts.wires_ended(), said)?;
    add_count(alloc, "waits", counts.waits(), said)?;
    add_count(alloc, "faults", faults, said)
}

fn add_count(alloc: Global, name: &str, count: u64, said: &mut String) -> Result<(), AllocError> {
    let digits = count.to_string(alloc)?;
    said.push_str(name)?;
    said.push(' ')?;
    said.push_str(digits.as_str())?;
    said.push(' ')
}

/// The tries to open a door, in a line.
pub fn tell_tries(tries: &[Try], said: &mut String) -> Result<(), AllocError> {
    said.push('\n')?;
    for made in tries {
        tell_try(made, said)?;
    }
    Ok(())
}

/// Where it was, with a `!` where no door was opened.
fn tell_try(made: &Try, said: &mut String) -> Result<(), AllocError> {
    said.push_str(made.location())?;
    if !made.was_opened() {
        said.push('!')?;
    }
    said.push(' ')
}

/// What each door counted that came back, a line each.
pub fn tell_doors(
    alloc: Global,
    doors: &[DoorCounts],
    said: &mut String,
) -> Result<(), AllocError> {
    for door in doors {
        said.push_str("\ndoor ")?;
        add_count(alloc, "place", door.place(), said)?;
        add_count(alloc, "given", door.wires(), said)?;
        add_count(alloc, "waits", door.waits(), said)?;
        add_count(alloc, "rests", door.rests(), said)?;
        add_count(alloc, "faults", door.faults(), said)?;
        tell_close(door.is_closed(), said)?;
    }
    Ok(())
}

/// Whether a door has answered that nobody comes any more.
fn tell_close(is_closed: bool, said: &mut String) -> Result<(), AllocError> {
    if is_closed {
        said.push_str("closed")?;
    }
    Ok(())
}

/// The wires that came back, a line each.
pub fn tell_unfailed(
    alloc: Global,
    returned: &[Return<UnfailingPollWire>],
    said: &mut String,
) -> Result<(), AllocError> {
    for back in returned {
        let wire = back.wire();
        tell_bytes(wire.given(), wire.taken(), said)?;
        tell_failures(back.is_lost(), back.is_cut(), said)?;
        tell_end(back.has_ended(), said)?;
        tell_waits(alloc, back.waits(), said)?;
    }
    Ok(())
}

/// The same of wires that follow a script.
pub fn tell_scripted(
    alloc: Global,
    returned: &[Return<ScriptedPollWire>],
    said: &mut String,
) -> Result<(), AllocError> {
    for back in returned {
        let wire = back.wire();
        tell_bytes(wire.given(), wire.taken(), said)?;
        tell_failures(back.is_lost(), back.is_cut(), said)?;
        tell_end(back.has_ended(), said)?;
        tell_waits(alloc, back.waits(), said)?;
    }
    Ok(())
}

/// What was read and what was written.
fn tell_bytes(read: &[u8], written: &[u8], said: &mut String) -> Result<(), AllocError> {
    said.push('\n')?;
    add_bytes(said, read)?;
    said.push('>')?;
    add_bytes(said, written)
}

/// Whether a read failed, and whether a write did.
fn tell_failures(is_lost: bool, is_cut: bool, said: &mut String) -> Result<(), AllocError> {
    if is_lost {
        said.push_str(" lost")?;
    }
    if is_cut {
        said.push_str(" cut")?;
    }
    Ok(())
}

/// Whether a read told the end of what comes in.
fn tell_end(has_ended: bool, said: &mut String) -> Result<(), AllocError> {
    if has_ended {
        said.push_str(" ended")?;
    }
    Ok(())
}

/// How often it could move nothing yet, where it ever was so.
fn tell_waits(alloc: Global, waits: u64, said: &mut String) -> Result<(), AllocError> {
    if waits == 0 {
        return Ok(());
    }
    let digits = waits.to_string(alloc)?;
    said.push_str(" waited ")?;
    said.push_str(digits.as_str())
}
