//! The trips of a row.

use crate::trips::links::{scripted_link, unfailing_link};
use crate::trips::peer::sent_by;
use http_link::HttpLink;
use outside_dials::{Dial, ScriptedDial, UnfailingDial};
use outside_links::Link;
use outside_traits::{CallError, WireCall};
use std::alloc::{AllocError, Global};
use test_rows::{Row, TableError};

/// Where the trips of most rows go.
const LOCATION: &str = "socket://localhost:9000";

/// The text of most trips.
const TEXT: &[u8] = b"ask";

/// More bytes than are written in a trip.
const AT_ONCE: usize = 1000;

/// A row that is longer is cut at few places alone.
const LONG: usize = 2000;

/// How far these places are from one another.
const LONG_STEP: usize = 997;

/// What the row's trip comes to, and remarks where it comes to something else in pieces, or a fault is passed over.
pub(crate) fn given(alloc: Global, row: &Row<'_>) -> Result<String, TableError> {
    if row.has("location") {
        return written(alloc, row);
    }
    let sent = sent_by(alloc, row)?;
    if row.has("piece") {
        let piece = row.number(alloc, "piece")? as usize;
        return Ok(calls_of(alloc, sent.as_slice(), piece)?);
    }
    Ok(come_to(alloc, sent.as_slice(), row.has("length"))?)
}

fn come_to(alloc: Global, sent: &[u8], is_length: bool) -> Result<String, AllocError> {
    let whole = unfailed(alloc, sent)?;
    let mut line = shown(alloc, &whole, is_length)?;
    line.push_str(remark(alloc, sent, &whole)?)?;
    Ok(line)
}

/// What is to be said where a trip comes to something else in pieces, or a fault is passed over.
fn remark(alloc: Global, sent: &[u8], whole: &Option<Vec<u8>>) -> Result<&'static str, AllocError> {
    if !is_same_in_pieces(alloc, sent, whole)? {
        return Ok(", and it differs in pieces");
    }
    if !fails_with_each_call(alloc, sent, 64)? || !fails_with_each_call(alloc, sent, AT_ONCE)? {
        return Ok(", and a fault is passed over");
    }
    Ok("")
}

/// What is written to the row's location.
fn written(alloc: Global, row: &Row<'_>) -> Result<String, TableError> {
    let location = row.text(alloc, "location")?;
    let text = row.bytes(alloc, "text")?;
    let mut link = unfailing_link(alloc, b"HTTP/1.1 204 No Content\r\n\r\n")?;
    written_by(alloc, &mut link, location.as_str(), text.as_slice())
}

/// The locations that a link dials, one a line, and what it writes on its wire.
fn written_by(
    alloc: Global,
    link: &mut HttpLink<UnfailingDial>,
    location: &str,
    text: &[u8],
) -> Result<String, TableError> {
    let front = match link.trip(location, text) {
        Ok(_) => "",
        Err(CallError::Failed) => "failed: ",
        Err(CallError::Memory(cause)) => return Err(TableError::Memory(cause)),
    };
    Ok(dialled(alloc, front, link.dialler())?)
}

fn dialled(alloc: Global, front: &str, dialler: &UnfailingDial) -> Result<String, AllocError> {
    let mut shown = String::from_str(alloc, front)?;
    for location in dialler.dialled() {
        shown.push_str(location.as_str())?;
        shown.push('\n')?;
    }
    if let Some(wire) = dialler.last() {
        shown.push_str(String::from_utf8_lossy(alloc, wire.taken())?.as_str())?;
    }
    Ok(shown)
}

/// The bytes that came back, or how many there are, or that the trip failed.
pub(crate) fn shown(
    alloc: Global,
    back: &Option<Vec<u8>>,
    is_length: bool,
) -> Result<String, AllocError> {
    match back {
        None => String::from_str(alloc, "failed"),
        Some(bytes) if is_length => {
            let length = bytes.len();
            format!(in alloc; "{length} bytes")
        }
        Some(bytes) => {
            let text = String::from_utf8_lossy(alloc, bytes.as_slice())?;
            let text = text.as_str();
            format!(in alloc; ">{text}")
        }
    }
}

/// What comes back on a wire that gives and takes all at once.
fn unfailed(alloc: Global, sent: &[u8]) -> Result<Option<Vec<u8>>, AllocError> {
    let mut link = unfailing_link(alloc, sent)?;
    back_from(&mut link)
}

/// What comes back on a wire that gives and takes so many bytes a call.
fn in_pieces(alloc: Global, sent: &[u8], piece: usize) -> Result<Option<Vec<u8>>, AllocError> {
    let mut link = scripted_link(alloc, sent, piece, &[])?;
    back_from(&mut link)
}

pub(crate) fn back_from<D: Dial>(link: &mut HttpLink<D>) -> Result<Option<Vec<u8>>, AllocError> {
    match link.trip(LOCATION, TEXT) {
        Ok(bytes) => Ok(Some(bytes)),
        Err(CallError::Failed) => Ok(None),
        Err(CallError::Memory(cause)) => Err(cause),
    }
}

/// Whether a trip comes to the same with the reads cut at each place, and byte by byte.
fn is_same_in_pieces(
    alloc: Global,
    sent: &[u8],
    whole: &Option<Vec<u8>>,
) -> Result<bool, AllocError> {
    for piece in 1..sent.len() {
        let is_tried = sent.len() < LONG || piece % LONG_STEP == 1;
        if is_tried && !is_same(&in_pieces(alloc, sent, piece)?, whole) {
            return Ok(false);
        }
    }
    Ok(true)
}

fn is_same(one: &Option<Vec<u8>>, other: &Option<Vec<u8>>) -> bool {
    match (one, other) {
        (Some(one), Some(other)) => one.as_slice() == other.as_slice(),
        (None, None) => true,
        _ => false,
    }
}

/// Whether the trip fails where one call of its wire does, whichever it is, and the wire that failed came back.
fn fails_with_each_call(alloc: Global, sent: &[u8], piece: usize) -> Result<bool, AllocError> {
    let calls = call_count(alloc, sent, piece)?;
    for call in 0..calls {
        if !fails_at(alloc, sent, piece, call)? {
            return Ok(false);
        }
    }
    Ok(calls > 0)
}

/// How many calls of its wire a trip makes.
fn call_count(alloc: Global, sent: &[u8], piece: usize) -> Result<u64, AllocError> {
    let mut link = scripted_link(alloc, sent, piece, &[])?;
    calls_in(&mut link)
}

fn calls_in(link: &mut HttpLink<ScriptedDial>) -> Result<u64, AllocError> {
    let _ = back_from(link)?;
    match link.dialler().last() {
        None => Ok(0),
        Some(wire) => Ok(wire.calls().len() as u64),
    }
}

fn fails_at(alloc: Global, sent: &[u8], piece: usize, call: u64) -> Result<bool, AllocError> {
    let mut link = scripted_link(alloc, sent, piece, &[call])?;
    fails_once(&mut link)
}

/// Whether the trip of a link fails, and a wire came back of which a read or a write had failed, and not both.
fn fails_once(link: &mut HttpLink<ScriptedDial>) -> Result<bool, AllocError> {
    if back_from(link)?.is_some() {
        return Ok(false);
    }
    match link.dialler().last() {
        None => Ok(false),
        Some(wire) => Ok(wire.is_lost() != wire.is_cut()),
    }
}

/// What comes back on a wire that gives and takes so many bytes a call, and its calls in order.
fn calls_of(alloc: Global, sent: &[u8], piece: usize) -> Result<String, AllocError> {
    let mut link = scripted_link(alloc, sent, piece, &[])?;
    calls_by(alloc, &mut link)
}

fn calls_by(alloc: Global, link: &mut HttpLink<ScriptedDial>) -> Result<String, AllocError> {
    let back = back_from(link)?;
    let mut text = shown(alloc, &back, false)?;
    if let Some(wire) = link.dialler().last() {
        add_calls(wire.calls(), &mut text)?;
    }
    Ok(text)
}

fn add_calls(calls: &[WireCall], text: &mut String) -> Result<(), AllocError> {
    for call in calls {
        match *call {
            WireCall::Read(count) => write!(text, ", read {count}")?,
            WireCall::Wrote(count) => write!(text, ", wrote {count}")?,
        }
    }
    Ok(())
}
