ghost use Rattle.std.specs.Prelude.{◌≡◌, ◌<◌, IfOk, length};
ghost use Rattle.std.specs.Io.{ReadsAtMost, WritesAtMost};
ghost use Rattle.std.specs.Io.KnownBytes.{ReadConsumes, WriteAppends};
ghost use Rattle.outside_sockets.specs.Sockets.{new_socket, told_by_socket};

use outside_traits::{Failed, Wire};
use std::io::{ErrorKind, Read, Write};
use std::marker::Model;
use std::net::{OpenStream, Shutdown};

/// A connection over a socket, whose reads and writes wait for the peer.
#[derive(Drop)]
pub struct SocketWire<S: Read + Write + OpenStream + Drop> {
    stream: Option<S>,
    lost: bool,
    cut: bool,
    ended: bool,
    door: Option<u64>,
}

impl<S: Read + Write + OpenStream + Drop> Model for SocketWire<S> {
    ghost use Rattle.std.specs.Prelude.{is_none};
    ghost use Rattle.outside_sockets.specs.Sockets.{SocketTold};

    ghost Value = { SocketTold };

    ghost view = { λ w. record {
      read_failed = w.lost;
      write_failed = w.cut;
      ended = w.ended;
      closed = is_none w.stream;
      door = w.door;
    } };
}

impl<S: Read + Write + OpenStream + Drop> SocketWire<S> {
    /// A connection over a stream, of which no call has failed, and which came at the door behind so many others, or at
    /// none.
    pub fn new(stream: S, door: Option<u64>) -> SocketWire<S>
        ensures { result ≡ new_socket door }
    {
        SocketWire {
            stream: Some(stream),
            lost: false,
            cut: false,
            ended: false,
            door,
        }
    }

    /// At which door it came, where it came at one: how many doors had been opened before that.
    pub fn door(&self) -> Option<u64>
        ensures { result ≡ self.now.door }
    {
        self.door
    }

    /// Whether a read has failed.
    pub fn is_lost(&self) -> bool
        ensures { result ≡ self.now.read_failed }
    {
        self.lost
    }

    /// Whether a write has failed before the wire was closed.
    pub fn is_cut(&self) -> bool
        ensures { result ≡ self.now.write_failed }
    {
        self.cut
    }

    /// Whether a read has told the end of what comes in.
    pub fn has_ended(&self) -> bool
        ensures { result ≡ self.now.ended }
    {
        self.ended
    }
}

impl<S: Read + Write + OpenStream + Drop> Wire for SocketWire<S> {
    ghost told = { λ w. told_by_socket w };

    fn read(&mut self, into: &mut [u8]) -> Result<usize, Failed> {
        let has_room = !into.is_empty();
        let Some(stream) = &mut self.stream else {
            return Ok(0);
        };
        let answer = read_uninterrupted(stream, into);
        match answer {
            Ok(count) => self.ended |= has_room && count == 0,
            Err(Failed) => self.lost = true,
        }
        answer
    }

    fn write(&mut self, from: &[u8]) -> Result<usize, Failed> {
        let is_closed = self.stream.is_none();
        let answer = match &mut self.stream {
            Some(stream) => write_uninterrupted(stream, from),
            None => Err(Failed),
        };
        if answer.is_err() {
            self.cut |= !is_closed;
        }
        answer
    }

    fn close(&mut self) {
        if let Some(stream) = &self.stream {
            // A peer that has gone already makes it fail, which changes nothing.
            let _ = stream.shutdown(Shutdown::Both);
        }
        self.stream = None;
    }
}

/// One read, tried again where a signal interrupts it.
fn read_uninterrupted<S: Read>(stream: &mut S, into: &mut [u8]) -> Result<usize, Failed>
    ensures bound { ReadsAtMost result into.new }
    ensures bytes { ReadConsumes (S.remaining stream.old) (S.remaining stream.new) result into.new }
{
    for _ in 0..u64::MAX {
        match stream.read(into) {
            Ok(count) => return Ok(count),
            Err(error) => {
                if error.kind() != ErrorKind::Interrupted {
                    return Err(Failed);
                }
            }
        }
    }
    Err(Failed)
}

/// One write, tried again where a signal interrupts it. A write that takes nothing of a piece has failed.
fn write_uninterrupted<S: Write>(stream: &mut S, from: &[u8]) -> Result<usize, Failed>
    ensures bound { WritesAtMost result from.now }
    ensures some { IfOk result (λ count. 0 < length from.now → 0 < count) }
    ensures bytes { WriteAppends (S.contents stream.old) (S.contents stream.new) result from.now }
{
    if from.is_empty() {
        return Ok(0);
    }
    for _ in 0..u64::MAX {
        match stream.write(from) {
            Ok(0) => return Err(Failed),
            Ok(count) => return Ok(count),
            Err(error) => {
                if error.kind() != ErrorKind::Interrupted {
                    return Err(Failed);
                }
            }
        }
    }
    Err(Failed)
}
