//! A connection that is asked and told, one step at a time.

use http_connection::{Connection, Stage};
use outside_traits::{Script, ScriptedWire, WireCall};
use std::alloc::{AllocError, Global};

/// For how many bytes a wire has room.
const ROOM: usize = 2000;

/// The most steps of a connection.
const MOST: usize = 1000;

/// A connection, the words that answer its requests one after another, and what was seen of it: what each step brought,
/// and the bodies that were handed out.
#[derive(Drop)]
pub(crate) struct Talk<'a> {
    alloc: Global,
    connection: Connection<ScriptedWire>,
    words: Vec<&'a str>,
    told: usize,
    steps: String,
    asked: String,
}

impl<'a> Talk<'a> {
    /// On a wire that gives and takes so many bytes a call, and fails at these calls.
    pub(crate) fn new(
        alloc: Global,
        stream: &[u8],
        words: &'a str,
        piece: usize,
        failing: &[u64],
    ) -> Result<Box<Talk<'a>>, AllocError> {
        let words = words.split(' ').collect(alloc)?;
        let connection = connected(alloc, stream, piece, failing)?;
        let talk = Talk {
            alloc,
            connection,
            words,
            told: 0,
            steps: String::new(alloc),
            asked: String::new(alloc),
        };
        Ok(Box::new(alloc, talk)?)
    }

    /// Asks for a request where one may be asked for.
    pub(crate) fn ask(&mut self) -> Result<(), AllocError> {
        if !matches!(self.connection.stage(), Stage::Reads) {
            return Ok(());
        }
        let before = self.connection.written().len();
        match self.connection.next_request()? {
            None => self.note("no more")?,
            Some(body) => self.note_body(body.as_slice())?,
        }
        self.note_written(before)
    }

    fn note_body(&mut self, body: &[u8]) -> Result<(), AllocError> {
        let body = String::from_utf8_lossy(self.alloc, body)?;
        self.note_asked(body.as_str())
    }

    fn note_asked(&mut self, body: &str) -> Result<(), AllocError> {
        if !self.asked.is_empty() {
            self.asked.push_str(", ")?;
        }
        self.asked.push_str(body)?;
        self.note("asked ")?;
        self.steps.push_str(body)
    }

    /// Tells an answer where one is owed: the next word, of which `nothing` is no text.
    pub(crate) fn tell(&mut self) -> Result<(), AllocError> {
        if !matches!(self.connection.stage(), Stage::Owes) {
            return Ok(());
        }
        let before = self.connection.written().len();
        let word = self.words.get(self.told).copied().unwrap_or("nothing");
        self.told = self.told.saturating_add(1);
        if word == "nothing" {
            self.connection.answer(None)?;
        } else {
            self.connection.answer(Some(word.as_bytes()))?;
        }
        self.note("told ")?;
        self.steps.push_str(word)?;
        self.note_written(before)
    }

    fn note(&mut self, what: &str) -> Result<(), AllocError> {
        if !self.steps.is_empty() {
            self.steps.push_str("\n")?;
        }
        self.steps.push_str(what)
    }

    /// Notes what was written in a step.
    fn note_written(&mut self, before: usize) -> Result<(), AllocError> {
        let Some(fresh) = self.connection.written().get(before..) else {
            return Ok(());
        };
        if fresh.is_empty() {
            return Ok(());
        }
        self.steps.push_str(" / ")?;
        let fresh = String::from_utf8_lossy(self.alloc, fresh)?;
        self.steps.push_str(fresh.as_str())
    }

    /// Whether the connection is over, or memory ran out.
    pub(crate) fn is_over(&self) -> bool {
        !matches!(self.connection.stage(), Stage::Reads | Stage::Owes)
    }

    /// Asks and tells until the connection is over.
    fn finish(&mut self) -> Result<(), AllocError> {
        for _ in 0..MOST {
            if self.is_over() {
                return Ok(());
            }
            self.ask()?;
            self.tell()?;
        }
        Ok(())
    }

    /// The wire, what passed over it and what was seen of it.
    pub(crate) fn into_ended(self) -> Result<Box<Ended>, AllocError> {
        let Talk {
            alloc,
            connection,
            words: _,
            told: _,
            steps,
            asked,
        } = self;
        let end = name_of(connection.stage());
        let (wire, read, written) = connection.into_parts();
        let ended = Ended {
            wire,
            read,
            written,
            end,
            steps,
            asked,
        };
        Ok(Box::new(alloc, ended)?)
    }
}

/// A connection over a wire that gives and takes so many bytes a call, and fails at these calls.
fn connected(
    alloc: Global,
    stream: &[u8],
    piece: usize,
    failing: &[u64],
) -> Result<Connection<ScriptedWire>, AllocError> {
    let script = Script::new(alloc, failing)?;
    let wire = ScriptedWire::new(alloc, stream, ROOM, piece.max(1), script)?;
    Ok(Connection::new(alloc, wire))
}

/// A connection that is over, or without memory: its wire, what passed, how it ended, and what was seen of it.
#[derive(Drop)]
pub(crate) struct Ended {
    wire: ScriptedWire,
    read: Vec<u8>,
    written: Vec<u8>,
    end: &'static str,
    steps: String,
    asked: String,
}

/// A connection that is asked and told until it is over.
pub(crate) fn finished(
    alloc: Global,
    stream: &[u8],
    words: &str,
    piece: usize,
    failing: &[u64],
) -> Result<Box<Ended>, AllocError> {
    let mut talk = Talk::new(alloc, stream, words, piece, failing)?;
    talk.finish()?;
    Box::into_inner(talk).into_ended()
}

impl Ended {
    /// What each step brought.
    pub(crate) fn steps(&self) -> &str {
        self.steps.as_str()
    }

    /// How often the wire was called.
    pub(crate) fn call_count(&self) -> usize {
        self.wire.calls().len()
    }

    /// How the connection ends where the call of a number fails.
    pub(crate) fn end_at(&self, call: usize) -> &'static str {
        match self.wire.calls().get(call) {
            Some(WireCall::Wrote(_)) => "write failed",
            _ => "read failed",
        }
    }

    /// The calls of the wire, in order.
    pub(crate) fn calls(&self, alloc: Global) -> Result<String, AllocError> {
        listed(alloc, self.wire.calls())
    }

    /// How it ended, where the wire tells the same of what passed and of what failed.
    pub(crate) fn end(&self) -> &'static str {
        if self.wire.given() == self.read.as_slice()
            && self.wire.taken() == self.written.as_slice()
            && self.wire.is_lost() == (self.end == "read failed")
            && self.wire.is_cut() == (self.end == "write failed")
        {
            self.end
        } else {
            "the wire tells another"
        }
    }

    /// What was asked, how it ended and what was written.
    pub(crate) fn text(&self, alloc: Global) -> Result<String, AllocError> {
        let asked = self.asked.as_str();
        let end = self.end();
        let written = String::from_utf8_lossy(alloc, self.written.as_slice())?;
        let written = written.as_str();
        format!(in alloc; "{asked}\n{end}\n{written}")
    }

    /// Whether no more was asked and written than here, and the same as far as it went.
    pub(crate) fn begins_as(&self, whole: &Ended) -> bool {
        whole.asked.as_str().starts_with(self.asked.as_str())
            && whole
                .written
                .as_slice()
                .starts_with(self.written.as_slice())
    }
}

fn listed(alloc: Global, calls: &[WireCall]) -> Result<String, AllocError> {
    let mut text = String::new(alloc);
    for call in calls {
        if !text.is_empty() {
            text.push_str(", ")?;
        }
        match *call {
            WireCall::Read(count) => write!(text, "read {count}")?,
            WireCall::Wrote(count) => write!(text, "wrote {count}")?,
        }
    }
    Ok(text)
}

fn name_of(stage: Stage) -> &'static str {
    match stage {
        Stage::Reads => "reads",
        Stage::Owes => "owes",
        Stage::Ended => "ended",
        Stage::Closed => "closed",
        Stage::ReadFailed => "read failed",
        Stage::WriteFailed => "write failed",
        Stage::Spent => "spent",
    }
}
