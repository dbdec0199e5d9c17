//! Rows of connections that are served.

use crate::readings::answers::Answers;
use crate::readings::stream::stream_of;
use http_port::{HeadReader, WireEnd, serve_wire};
use outside_traits::{Script, ScriptedWire, UnfailingWire, WireCall};
use std::alloc::{AllocError, Global};
use test_rows::{Row, TableError};

/// For how many bytes a wire has room.
const ROOM: usize = 1000;

/// How a connection is served, and the calls of its wire.
#[derive(Drop)]
struct Served {
    outcome: String,
    calls: String,
}

/// What the row expects: how serving ends, what is asked and what is written; and in which order the wire is called,
/// where it says so.
pub(crate) fn expected(alloc: Global, row: &Row<'_>) -> Result<String, TableError> {
    let end = row.text(alloc, "end")?;
    let asked = row.text(alloc, "asked")?;
    let written = row.text(alloc, "written")?;
    let outcome = lines(alloc, end.as_str(), asked.as_str(), written.as_str())?;
    if !row.has("calls") {
        return Ok(outcome);
    }
    let calls = row.text(alloc, "calls")?;
    Ok(with_calls(alloc, &Served { outcome, calls })?)
}

fn with_calls(alloc: Global, served: &Served) -> Result<String, AllocError> {
    let outcome = served.outcome.as_str();
    let calls = served.calls.as_str();
    format!(in alloc; "{outcome}\n{calls}")
}

fn lines(alloc: Global, end: &str, asked: &str, written: &str) -> Result<String, AllocError> {
    format!(in alloc; "{end}\n{asked}\n{written}")
}

fn outcome(
    alloc: Global,
    end: WireEnd,
    answers: &Answers<'_>,
    written: &[u8],
) -> Result<String, AllocError> {
    let written = String::from_utf8_lossy(alloc, written)?;
    lines(alloc, name_of(end), answers.asked(), written.as_str())
}

fn name_of(end: WireEnd) -> &'static str {
    match end {
        WireEnd::Ended => "ended",
        WireEnd::Closed => "closed",
        WireEnd::ReadFailed => "read failed",
        WireEnd::WriteFailed => "write failed",
        WireEnd::Later { close: true } => "later, and closes",
        WireEnd::Later { close: false } => "later",
    }
}

/// What serving the row's connection comes to, and a remark where its pieces come to something else.
pub(crate) fn given(alloc: Global, row: &Row<'_>) -> Result<String, TableError> {
    let stream = stream_of(alloc, row)?;
    let stream = stream.as_slice();
    let says = row.text(alloc, "says")?;
    let says = says.as_str();
    if row.has("piece") {
        return by_script(alloc, row, stream, says);
    }
    if row.has("calls") {
        let served = unfailed(alloc, stream, says)?;
        return Ok(with_calls(alloc, &served)?);
    }
    let mut whole = in_pieces(alloc, &[stream], says)?;
    let is_same = is_same_in_pieces(alloc, stream, says, whole.as_str())?
        && (!row.has("pairs") || is_same_cut_twice(alloc, stream, says, whole.as_str())?);
    if !is_same {
        whole.push_str(", and it differs in pieces")?;
    }
    Ok(whole)
}

/// By a wire that gives and takes as many bytes a call as the row says, and fails where it says so.
fn by_script(
    alloc: Global,
    row: &Row<'_>,
    stream: &[u8],
    says: &str,
) -> Result<String, TableError> {
    let piece = row.number(alloc, "piece")? as usize;
    let mut failing = Vec::new(alloc);
    if row.has("fails") {
        failing.push(u64::from(row.number(alloc, "fails")?))?;
    }
    let served = scripted(alloc, stream, says, piece, failing.as_slice())?;
    if row.has("calls") {
        return Ok(with_calls(alloc, &served)?);
    }
    Ok(served.outcome)
}

/// By a wire that gives and takes so many bytes a call, and fails at these calls.
fn scripted(
    alloc: Global,
    stream: &[u8],
    says: &str,
    piece: usize,
    failing: &[u64],
) -> Result<Served, AllocError> {
    let script = Script::new(alloc, failing)?;
    let mut wire = ScriptedWire::new(alloc, stream, ROOM, piece.max(1), script)?;
    let mut reader = HeadReader::new(alloc);
    let mut answers = Answers::new(alloc, says)?;
    let end = serve_wire(alloc, &mut wire, &mut reader, &mut answers)?;
    Ok(Served {
        outcome: outcome(alloc, end, &answers, wire.taken())?,
        calls: listed(alloc, wire.calls())?,
    })
}

/// By a wire that gives and takes all at once.
fn unfailed(alloc: Global, stream: &[u8], says: &str) -> Result<Served, AllocError> {
    let mut wire = UnfailingWire::new(alloc, stream, ROOM)?;
    let mut reader = HeadReader::new(alloc);
    let mut answers = Answers::new(alloc, says)?;
    let end = serve_wire(alloc, &mut wire, &mut reader, &mut answers)?;
    Ok(Served {
        outcome: outcome(alloc, end, &answers, wire.taken())?,
        calls: listed(alloc, wire.calls())?,
    })
}

/// The calls of a wire, in order.
fn listed(alloc: Global, calls: &[WireCall]) -> Result<String, AllocError> {
    let mut text = String::new(alloc);
    for call in calls {
        if !text.is_empty() {
            text.push_str(", ")?;
        }
        match *call {
            WireCall::Read(count) => write!(text, "read {count}")?,
            WireCall::Wrote(count) => write!(text, "wrote {count}")?,
        }
    }
    Ok(text)
}

/// By a wire for each piece.
fn in_pieces(alloc: Global, pieces: &[&[u8]], says: &str) -> Result<String, AllocError> {
    let mut reader = HeadReader::new(alloc);
    let mut answers = Answers::new(alloc, says)?;
    let mut written = Vec::new(alloc);
    let mut end = WireEnd::Ended;
    for piece in pieces {
        let mut wire = UnfailingWire::new(alloc, piece, ROOM)?;
        end = serve_wire(alloc, &mut wire, &mut reader, &mut answers)?;
        written.extend_from_slice(wire.taken())?;
        if end != WireEnd::Ended {
            break;
        }
    }
    outcome(alloc, end, &answers, written.as_slice())
}

/// Whether serving comes to the same byte by byte, and where the stream is cut at each place.
fn is_same_in_pieces(
    alloc: Global,
    stream: &[u8],
    says: &str,
    whole: &str,
) -> Result<bool, AllocError> {
    for cut in 0..stream.len() {
        let (front, back) = stream.split_at(cut);
        if in_pieces(alloc, &[front, back], says)?.as_str() != whole {
            return Ok(false);
        }
    }
    Ok(scripted(alloc, stream, says, 1, &[])?.outcome.as_str() == whole)
}

/// Whether serving comes to the same where the stream is cut at each two places.
fn is_same_cut_twice(
    alloc: Global,
    stream: &[u8],
    says: &str,
    whole: &str,
) -> Result<bool, AllocError> {
    for second in 0..stream.len() {
        let (front, back) = stream.split_at(second);
        for first in 0..second {
            let (start, middle) = front.split_at(first);
            if in_pieces(alloc, &[start, middle, back], says)?.as_str() != whole {
                return Ok(false);
            }
        }
    }
    Ok(true)
}
