//! Connections over wires that do not wait: they move one byte a call, before which they can move nothing yet.

use conn_future::{ConnTask, Stage, Traffic};
use futures::task::Poll;
use jolie_trees::Bytes;
use outside_memory_doors::ScriptedPollWire;
use std::alloc::{AllocError, Global};

/// For how many bytes a wire has room.
const ROOM: usize = 2000;

/// The most polls of a connection.
const MOST: u32 = 10_000;

/// How many calls of a wire come too early at most.
const EARLY: u64 = 2000;

/// A connection, the words that answer its requests one after another, and the bodies that were handed out.
#[derive(Drop)]
struct Polled<'a> {
    alloc: Global,
    task: ConnTask<ScriptedPollWire>,
    words: Vec<&'a str>,
    told: usize,
    asked: String,
}

/// What comes of a connection: what was asked, how it ended and what was written.
pub(crate) fn outcome(alloc: Global, stream: &[u8], words: &str) -> Result<String, AllocError> {
    let mut polled = Polled::new(alloc, stream, words)?;
    polled.finish()?;
    Box::into_inner(polled).into_text()
}

impl<'a> Polled<'a> {
    fn new(alloc: Global, stream: &[u8], words: &'a str) -> Result<Box<Polled<'a>>, AllocError> {
        let words = words.split(' ').collect(alloc)?;
        let wire = early_wire(alloc, stream)?;
        let polled = Polled {
            alloc,
            task: ConnTask::new(alloc, wire),
            words,
            told: 0,
            asked: String::new(alloc),
        };
        Ok(Box::new(alloc, polled)?)
    }

    /// Polls until the connection is over.
    fn finish(&mut self) -> Result<(), AllocError> {
        for _ in 0..MOST {
            match self.task.poll() {
                Poll::Pending => self.answer()?,
                Poll::Ready(Ok(())) => return Ok(()),
                Poll::Ready(Err(AllocError)) => return Err(AllocError),
            }
        }
        Ok(())
    }

    /// Tells the answer of a request that is whole: the next word, of which `nothing` is no text.
    fn answer(&mut self) -> Result<(), AllocError> {
        let Some(body) = self.task.asked() else {
            return Ok(());
        };
        let word = self.words.get(self.told).copied().unwrap_or("nothing");
        self.told = self.told.saturating_add(1);
        let said = said(self.alloc, word)?;
        self.task.give(said);
        self.note(body.as_slice())
    }

    fn note(&mut self, body: &[u8]) -> Result<(), AllocError> {
        let body = String::from_utf8_lossy(self.alloc, body)?;
        if !self.asked.is_empty() {
            self.asked.push_str(", ")?;
        }
        self.asked.push_str(body.as_str())
    }

    fn into_text(self) -> Result<String, AllocError> {
        let Polled {
            alloc,
            task,
            words: _,
            told: _,
            asked,
        } = self;
        let end = name_of(task.stage());
        let (traffic, wire) = task.into_parts();
        let end = if is_told(&wire, &traffic) {
            end
        } else {
            "the wire tells another"
        };
        let asked = asked.as_str();
        let written = String::from_utf8_lossy(alloc, traffic.written.as_slice())?;
        let written = written.as_str();
        format!(in alloc; "{asked}\n{end}\n{written}")
    }
}

/// Whether a wire tells this of what passed.
fn is_told(wire: &ScriptedPollWire, traffic: &Traffic) -> bool {
    wire.given() == traffic.read.as_slice() && wire.taken() == traffic.written.as_slice()
}

fn said(alloc: Global, word: &str) -> Result<Option<Bytes>, AllocError> {
    if word == "nothing" {
        return Ok(None);
    }
    Ok(Some(Bytes::from_slice(alloc, word.as_bytes())?))
}

/// A wire that moves one byte a call, each second call of which comes too early.
fn early_wire(alloc: Global, stream: &[u8]) -> Result<ScriptedPollWire, AllocError> {
    let early = even_numbers(alloc)?;
    ScriptedPollWire::new(alloc, stream, ROOM, 1, &[], early.as_slice())
}

fn even_numbers(alloc: Global) -> Result<Vec<u64>, AllocError> {
    let mut numbers = Vec::new(alloc);
    for half in 0..EARLY {
        numbers.push(half * 2)?;
    }
    Ok(numbers)
}

fn name_of(stage: Stage) -> &'static str {
    match stage {
        Stage::Reads => "reads",
        Stage::Asks => "asks",
        Stage::Owes => "owes",
        Stage::Writes => "writes",
        Stage::Ended => "ended",
        Stage::Closed => "closed",
        Stage::ReadFailed => "read failed",
        Stage::WriteFailed => "write failed",
        Stage::Spent => "spent",
    }
}
