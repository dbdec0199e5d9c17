ghost use Rattle.std.specs.Prelude.{ℕ, ◌<◌, List, length};
ghost use Rattle.std.specs.Io.{ReadsAtMost, WritesAtMost};
ghost use Rattle.outside_polling.specs.Polls.{done};
ghost use Rattle.outside_socket_doors.specs.Lines.{IfDone};

use crate::patience::Turn;
use crate::seat::Seat;
use mio::Interest;
use mio::net::TcpStream;
use outside_polling::Ready;
use outside_traits::Failed;
use std::io;
use std::io::{Eprint, ErrorKind, Read, Write};
use std::net::{Net, Shutdown};
use std::rt::Clock;

/// A socket whose reads and writes do not wait, and whose peer is waited for with patience: what can move nothing yet
/// fails where its time is over. Where a call has found nothing the system is asked no more until the poll reports.
///
/// It has what comes reported, and room for more only while a write waits for that: else a peer that sends what no read
/// gives, as an urgent byte, would have it reported that there is room, and so end one rest after the other.
#[derive(Drop)]
pub(crate) struct Line<H: Net + Clock + Eprint + Copy + Drop> {
    stream: TcpStream,
    seat: Seat<H>,
    /// What had been reported when a read found that nothing more was there, and when a write found no room.
    emptied: Option<u64>,
    filled: Option<u64>,
    awaits_room: bool,
    turn: Turn,
}

impl<H: Net + Clock + Eprint + Copy + Drop> Line<H> {
    /// A line over a stream that has just come in, which is reported at a seat from now on.
    pub(crate) fn new(mut stream: TcpStream, seat: Seat<H>) -> io::Result<Line<H>> {
        // Where it fails, what is written in several pieces may go out later, and nothing else changes.
        let _ = stream.set_nodelay(true);
        seat.enroll(&mut stream, Interest::READABLE)?;
        let turn = Turn::Idle(seat.now());
        Ok(Line {
            stream,
            seat,
            emptied: None,
            filled: None,
            awaits_room: false,
            turn,
        })
    }

    /// The next bytes, if some have come or none come any more. Where nobody new is let in any more, none come of a
    /// request that has not begun.
    pub(crate) fn try_read(&mut self, into: &mut [u8]) -> Result<Ready, Failed>
        ensures { ReadsAtMost (done result) into.new }
    {
        if into.is_empty() {
            return Ok(Ready::Done(0));
        }
        self.turn = self.turn.at_read(self.seat.now());
        self.await_bytes();
        let Some(rings) = self.seat.news(self.emptied) else {
            return self.nothing_read();
        };
        match self.stream.read(into) {
            Ok(count) => {
                // What came before this read is all read where there was room for more, and what comes after it is
                // reported. Only that the peer had ended before it is reported no more.
                let is_all = count < into.len() && !self.seat.may_have_ended();
                self.emptied = if is_all { Some(rings) } else { None };
                self.turn = self.turn.by_read(count, self.seat.now());
                Ok(Ready::Done(count))
            }
            Err(error) => {
                self.emptied = self.seat.mark_of(&error, rings);
                if is_early(&error) {
                    self.nothing_read()
                } else {
                    Err(Failed)
                }
            }
        }
    }

    /// Takes a prefix of the bytes, if there is room for some.
    pub(crate) fn try_write(&mut self, from: &[u8]) -> Result<Ready, Failed>
        ensures bound { WritesAtMost (done result) from.now }
        ensures some { IfDone result (λ count. 0 < length from.now → 0 < count) }
    {
        if from.is_empty() {
            return Ok(Ready::Done(0));
        }
        self.turn = self.turn.at_write(self.seat.now());
        let Some(rings) = self.seat.news(self.filled) else {
            return self.nothing_yet();
        };
        self.filled = None;
        match self.stream.write(from) {
            Ok(0) => Err(Failed),
            Ok(count) => Ok(Ready::Done(count)),
            Err(error) => {
                self.filled = self.seat.mark_of(&error, rings);
                if is_early(&error) {
                    self.await_room();
                    self.nothing_yet()
                } else {
                    Err(Failed)
                }
            }
        }
    }

    /// Closes the socket both ways.
    pub(crate) fn shut(&self) {
        // A peer that has gone already makes it fail, which changes nothing.
        let _ = self.stream.shutdown(Shutdown::Both);
    }

    /// Has what comes be reported again, where room was. What came meanwhile is not known, so that the next read asks.
    fn await_bytes(&mut self) {
        if self.awaits_room {
            self.emptied = None;
            self.awaits_room = self
                .seat
                .enroll_anew(&mut self.stream, Interest::READABLE)
                .is_err();
        }
    }

    /// Has room for more be reported, in place of what comes. Where that can't be, the next write asks.
    fn await_room(&mut self) {
        if !self.awaits_room {
            self.awaits_room = self
                .seat
                .enroll_anew(&mut self.stream, Interest::WRITABLE)
                .is_ok();
        }
        if !self.awaits_room {
            self.filled = None;
        }
    }

    /// What a read answers that finds nothing.
    fn nothing_read(&self) -> Result<Ready, Failed>
        ensures { (bytes : List ℕ) → ReadsAtMost (done result) bytes }
    {
        if self.turn.is_idle() && self.seat.is_closing() {
            return Ok(Ready::Done(0));
        }
        self.nothing_yet()
    }

    /// What a call answers that can move nothing.
    fn nothing_yet(&self) -> Result<Ready, Failed>
        ensures reads { (bytes : List ℕ) → ReadsAtMost (done result) bytes }
        ensures writes { (bytes : List ℕ) → WritesAtMost (done result) bytes }
        ensures some { (length : ℕ) → IfDone result (λ count. 0 < length → 0 < count) }
    {
        if self.turn.is_over(self.seat.patience(), self.seat.now()) {
            return Err(Failed);
        }
        Ok(Ready::NotYet)
    }
}

/// Whether a call has failed only because it would have to wait, or because a signal came first.
fn is_early(error: &io::Error) -> bool {
    matches!(error.kind(), ErrorKind::WouldBlock | ErrorKind::Interrupted)
}
