ghost use Rattle.std.specs.Prelude.{◌≡◌, ◌≤◌, ◌<◌, [], None, Some, IfOk, IfSome, length, map, string_bytes, take};
ghost use Rattle.std.specs.Io.{ReadsAtMost, WritesAtMost};
ghost use Rattle.std.specs.Io.KnownBytes.{ReadConsumes, WriteAppends};

use crate::errors::{CallError, Failed};
use crate::names::Names;
use crate::traits::{Files, Sink, Source};
use std::alloc::Global;
use std::io::{ErrorKind, Read, Write};
use std::marker::Model;
use std::{fs, rt};

/// A reader as a source, which tells what the reader tells: nothing, where it is a file or a standard stream.
#[derive(Drop)]
pub struct Inputs<R: Read + Drop> {
    reader: R,
    faults: u64,
}

impl<R: Read + Drop> Model for Inputs<R> {
    ghost use Rattle.outside_traits.specs.Told.{SourceTold};

    ghost Value = { SourceTold };

    ghost view = { λ s. record { unread = R.remaining s.reader; faults = s.faults } };
}

impl<R: Read + Drop> Inputs<R> {
    pub fn new(reader: R) -> Inputs<R>
        ensures unread { result.unread ≡ R.remaining reader }
        ensures faults { result.faults ≡ 0 }
    {
        Inputs { reader, faults: 0 }
    }
}

impl<R: Read + Drop> Source for Inputs<R> {
    ghost told = { λ s. s };

    fn read(&mut self, into: &mut [u8]) -> Result<usize, Failed> {
        let answer = read_uninterrupted(&mut self.reader, into);
        if answer.is_err() {
            self.faults = self.faults.saturating_add(1);
        }
        answer
    }
}

/// One read, tried again where a signal interrupts it.
fn read_uninterrupted<R: Read>(reader: &mut R, into: &mut [u8]) -> Result<usize, Failed>
    ensures bound { ReadsAtMost result into.new }
    ensures bytes { ReadConsumes (R.remaining reader.old) (R.remaining reader.new) result into.new }
{
    for _ in 0..u64::MAX {
        match reader.read(into) {
            Ok(count) => return Ok(count),
            Err(error) => {
                if error.kind() != ErrorKind::Interrupted {
                    return Err(Failed);
                }
            }
        }
    }
    Err(Failed)
}

/// A writer as a sink, which tells what the writer tells: nothing, where it is a file or a standard stream.
#[derive(Drop)]
pub struct Outputs<W: Write + Drop> {
    writer: W,
    faults: u64,
}

impl<W: Write + Drop> Model for Outputs<W> {
    ghost use Rattle.outside_traits.specs.Told.{SinkTold};

    ghost Value = { SinkTold };

    ghost view = { λ s. record { written = W.contents s.writer; faults = s.faults } };
}

impl<W: Write + Drop> Outputs<W> {
    pub fn new(writer: W) -> Outputs<W>
        ensures written { result.written ≡ W.contents writer }
        ensures faults { result.faults ≡ 0 }
    {
        Outputs { writer, faults: 0 }
    }
}

impl<W: Write + Drop> Sink for Outputs<W> {
    ghost told = { λ s. s };

    fn write(&mut self, from: &[u8]) -> Result<usize, Failed> {
        let answer = write_uninterrupted(&mut self.writer, from);
        if answer.is_err() {
            self.faults = self.faults.saturating_add(1);
        }
        answer
    }
}

/// One write, tried again where a signal interrupts it. A write that takes nothing of a piece has failed.
fn write_uninterrupted<W: Write>(writer: &mut W, from: &[u8]) -> Result<usize, Failed>
    ensures bound { WritesAtMost result from.now }
    ensures some { IfOk result (λ count. 0 < length from.now → 0 < count) }
    ensures bytes { WriteAppends (W.contents writer.old) (W.contents writer.new) result from.now }
{
    if from.is_empty() {
        return Ok(0);
    }
    for _ in 0..u64::MAX {
        match writer.write(from) {
            Ok(0) => return Err(Failed),
            Ok(count) => return Ok(count),
            Err(error) => {
                if error.kind() != ErrorKind::Interrupted {
                    return Err(Failed);
                }
            }
        }
    }
    Err(Failed)
}

/// The files of the system, which tell the names that they were asked for, and no bytes.
#[derive(Drop)]
pub struct Storage<H: rt::Files + Drop> {
    alloc: Global,
    host: H,
    asked: Names,
    faults: u64,
}

impl<H: rt::Files + Drop> Model for Storage<H> {
    ghost use Rattle.outside_traits.specs.Told.{FilesTold};

    ghost Value = { FilesTold };

    ghost view = { λ s. record { asked = s.asked; faults = s.faults } };
}

impl<H: rt::Files + Drop> Storage<H> {
    pub fn new(alloc: Global, host: H) -> Storage<H>
        ensures asked { result.asked ≡ Some [] }
        ensures faults { result.faults ≡ 0 }
    {
        Storage {
            alloc,
            host,
            asked: Names::new(alloc),
            faults: 0,
        }
    }

    /// The names that were asked for in order: all, where they are told.
    pub fn asked(&self) -> &[String]
        ensures { IfSome self.now.asked (λ names. map string_bytes result.now ≡ names) }
    {
        self.asked.noted()
    }
}

impl<H: rt::Files + Drop> Files for Storage<H> {
    ghost held = { λ _ _. None };

    ghost told = { λ s. s };

    fn read(&mut self, name: &str, most: u64) -> Result<Vec<u8>, CallError> {
        self.asked.note(name)?;
        let answer = read_file(self.alloc, &self.host, name, most);
        if let Err(CallError::Failed) = &answer {
            self.faults = self.faults.saturating_add(1);
        }
        answer
    }
}

/// The first `most` bytes of a file, or all of it where it has fewer.
fn read_file<H: rt::Files>(
    alloc: Global,
    host: &H,
    name: &str,
    most: u64,
) -> Result<Vec<u8>, CallError>
    ensures most { IfOk result (λ bytes. length bytes.items ≤ most) }
{
    match fs::open(host, name) {
        Ok(file) => read_front(alloc, &mut Inputs::new(file), most),
        Err(_) => Err(CallError::Failed),
    }
}

const CHUNK: usize = 4096;

/// The first `most` bytes of a source, or all of them where it has fewer.
fn read_front<S: Source>(alloc: Global, source: &mut S, most: u64) -> Result<Vec<u8>, CallError>
    ensures most { IfOk result (λ bytes. length bytes.items ≤ most) }
    ensures bytes { IfOk result (λ bytes. IfSome (S.told source.old).unread (λ all. bytes.items ≡ take most all)) }
{
    let mut bytes = Vec::new(alloc);
    let mut chunk = [0; CHUNK];
    while (bytes.len() as u64) < most {
        let room = (most - bytes.len() as u64).min(CHUNK as u64) as usize;
        let count = source.read(&mut chunk[..room])?;
        if count == 0 {
            break;
        }
        bytes.extend_from_slice(&chunk[..count])?;
    }
    Ok(bytes)
}
