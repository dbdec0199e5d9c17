//! What the calls of a row gave.

use outside_traits::WireCall;
use std::alloc::{AllocError, Global};
use test_rows::{Row, TableError};

/// The counts that calls gave, the numbers of those that failed, the bytes that came or went, and what is told of the
/// calls.
#[derive(Drop)]
pub struct Calls {
    alloc: Global,
    counts: String,
    failed: String,
    bytes: String,
    written: String,
    told: String,
}

impl Calls {
    pub fn new(alloc: Global) -> Calls {
        Calls {
            alloc,
            counts: String::new(alloc),
            failed: String::new(alloc),
            bytes: String::new(alloc),
            written: String::new(alloc),
            told: String::new(alloc),
        }
    }

    /// A call gave a count.
    pub fn gave(&mut self, count: usize) -> Result<(), AllocError> {
        let digits = count.to_string(self.alloc)?;
        add_word(&mut self.counts, digits.as_str())
    }

    /// The call of this number failed.
    pub fn failed(&mut self, call: u32) -> Result<(), AllocError> {
        let digits = call.to_string(self.alloc)?;
        add_word(&mut self.failed, digits.as_str())
    }

    /// Bytes came or went.
    pub fn moved(&mut self, bytes: &[u8]) -> Result<(), AllocError> {
        let text = String::from_utf8_lossy(self.alloc, bytes)?;
        self.bytes.push_str(text.as_str())
    }

    /// Bytes went the other way.
    pub fn went(&mut self, bytes: &[u8]) -> Result<(), AllocError> {
        let text = String::from_utf8_lossy(self.alloc, bytes)?;
        self.written.push_str(text.as_str())
    }

    /// A wire told its calls.
    pub fn told(&mut self, calls: &[WireCall]) -> Result<(), AllocError> {
        for call in calls {
            if !self.told.as_str().is_empty() {
                self.told.push_str(", ")?;
            }
            match *call {
                WireCall::Read(count) => write!(self.told, "read {count}")?,
                WireCall::Wrote(count) => write!(self.told, "wrote {count}")?,
            }
        }
        Ok(())
    }

    /// Files told the names that were asked for.
    pub fn asked(&mut self, names: &[String]) -> Result<(), AllocError> {
        for name in names {
            add_word(&mut self.told, name.as_str())?;
        }
        Ok(())
    }

    pub fn aspect(&self, name: &str) -> &str {
        match name {
            "bytes" => self.bytes.as_str(),
            "counts" => self.counts.as_str(),
            "written" => self.written.as_str(),
            "told" => self.told.as_str(),
            _ => self.failed.as_str(),
        }
    }
}

fn add_word(words: &mut String, word: &str) -> Result<(), AllocError> {
    if !words.as_str().is_empty() {
        words.push(' ')?;
    }
    words.push_str(word)
}

/// How many calls a row makes.
pub fn call_count(alloc: Global, row: &Row<'_>) -> Result<u32, TableError> {
    row.number(alloc, "calls")
}
