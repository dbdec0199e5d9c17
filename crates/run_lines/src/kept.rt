//! What a front over lines keeps.

ghost use Rattle.std.specs.Prelude.{◌≡◌};
ghost use Rattle.run_lines.specs.Passing.{read_in};
ghost use Rattle.run_lines.specs.Keeping.{IsEmpty};

use crate::reader::Reader;
use jolie_trees::Bytes;
use run_record::Traffic;
use std::alloc::Global;

/// What a front over lines keeps: what it read, what its output took, whether it halted, and whether memory ran out in
/// a call.
#[derive(Drop)]
pub struct Kept {
    pub(crate) reader: Reader,
    pub(crate) written: Vec<u8>,
    pub(crate) halted: bool,
    pub(crate) spent: bool,
}

impl Kept {
    pub fn new(alloc: Global) -> Kept
        ensures { IsEmpty result }
    {
        Kept {
            reader: Reader::new(alloc),
            written: Vec::new(alloc),
            halted: false,
            spent: false,
        }
    }

    /// Whether the source failed.
    pub fn failed(&self) -> bool
        ensures { result ≡ self.now.reader.failed }
    {
        self.reader.failed
    }

    /// Whether the front halted: its output or its notes failed.
    pub fn halted(&self) -> bool
        ensures { result ≡ self.now.halted }
    {
        self.halted
    }

    /// Whether memory ran out in a call: then it is want of memory that the front answers.
    pub fn spent(&self) -> bool
        ensures { result ≡ self.now.spent }
    {
        self.spent
    }

    /// The bytes that were read and written.
    pub fn into_traffic(self) -> Traffic
        ensures read { result.read ≡ read_in self.reader.lines }
        ensures written { result.written ≡ self.written.items }
    {
        let Kept {
            reader,
            written,
            halted: _,
            spent: _,
        } = self;
        Traffic {
            read: Bytes::from_vec(reader.into_bytes()),
            written: Bytes::from_vec(written),
        }
    }
}
