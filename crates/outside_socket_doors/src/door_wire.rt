ghost use Rattle.std.specs.Prelude.{◌≡◌};
ghost use Rattle.outside_polling.specs.Polls as spec;
ghost use Rattle.outside_socket_doors.specs.Lines.{new_wire};

use crate::line::Line;
use outside_polling::{PollWire, Ready};
use outside_traits::Failed;
use std::io::Eprint;
use std::marker::Model;
use std::net::Net;
use std::rt::Clock;

/// A connection over a socket, whose reads and writes do not wait for the peer. It came at the door before which so many
/// others had been opened.
#[derive(Drop)]
pub struct DoorWire<H: Net + Clock + Eprint + Copy + Drop> {
    line: Option<Line<H>>,
    lost: bool,
    cut: bool,
    ended: bool,
    waits: u64,
    in_a_row: u64,
    longest: u64,
    door: u64,
}

impl<H: Net + Clock + Eprint + Copy + Drop> Model for DoorWire<H> {
    ghost use Rattle.std.specs.Prelude.{is_none};
    ghost use Rattle.outside_socket_doors.specs.Lines.{LineTold};

    ghost Value = { LineTold };

    ghost view = { λ w. record {
      read_failed = w.lost;
      write_failed = w.cut;
      ended = w.ended;
      closed = is_none w.line;
      waits = w.waits;
      in_a_row = w.in_a_row;
      longest = w.longest;
      door = w.door;
    } };
}

impl<H: Net + Clock + Eprint + Copy + Drop> DoorWire<H> {
    /// A connection over a line, of which no call has failed or waited.
    pub(crate) fn new(line: Line<H>, door: u64) -> DoorWire<H>
        ensures { result ≡ new_wire door }
    {
        DoorWire {
            line: Some(line),
            lost: false,
            cut: false,
            ended: false,
            waits: 0,
            in_a_row: 0,
            longest: 0,
            door,
        }
    }

    /// At which door it came: how many doors had been opened before that.
    pub fn door(&self) -> u64
        ensures { result ≡ self.now.door }
    {
        self.door
    }

    /// How often it has answered that it can move nothing yet.
    pub fn waits(&self) -> u64
        ensures { result ≡ self.now.waits }
    {
        self.waits
    }

    /// How often in a row it has answered so up to now.
    pub fn in_a_row(&self) -> u64
        ensures { result ≡ self.now.in_a_row }
    {
        self.in_a_row
    }

    /// How often in the longest row that a write has come to.
    pub fn longest(&self) -> u64
        ensures { result ≡ self.now.longest }
    {
        self.longest
    }

    /// Whether a read has failed.
    pub fn is_lost(&self) -> bool
        ensures { result ≡ self.now.read_failed }
    {
        self.lost
    }

    /// Whether a write has failed before the wire was closed.
    pub fn is_cut(&self) -> bool
        ensures { result ≡ self.now.write_failed }
    {
        self.cut
    }

    /// Whether a read has told the end of what comes in.
    pub fn has_ended(&self) -> bool
        ensures { result ≡ self.now.ended }
    {
        self.ended
    }

    /// Counts an answer that it can move nothing yet.
    fn add_wait(&mut self)
        ensures { self.new ≡ record self.old {
          waits = spec.once_more self.old.waits;
          in_a_row = spec.once_more self.old.in_a_row;
        } }
    {
        self.waits = self.waits.saturating_add(1);
        self.in_a_row = self.in_a_row.saturating_add(1);
    }
}

impl<H: Net + Clock + Eprint + Copy + Drop> PollWire for DoorWire<H> {
    ghost use Rattle.outside_socket_doors.specs.Lines.{told_by_line};

    ghost told = { λ w. told_by_line w };

    fn try_read(&mut self, into: &mut [u8]) -> Result<Ready, Failed> {
        let has_room = !into.is_empty();
        let Some(line) = &mut self.line else {
            self.in_a_row = 0;
            return Ok(Ready::Done(0));
        };
        let answer = line.try_read(into);
        match answer {
            Ok(Ready::Done(count)) => {
                self.in_a_row = 0;
                self.ended |= has_room && count == 0;
            }
            Ok(Ready::NotYet) => self.add_wait(),
            Err(Failed) => {
                self.in_a_row = 0;
                self.lost = true;
            }
        }
        answer
    }

    fn try_write(&mut self, from: &[u8]) -> Result<Ready, Failed> {
        let Some(line) = &mut self.line else {
            self.in_a_row = 0;
            return Err(Failed);
        };
        let answer = line.try_write(from);
        match answer {
            Ok(Ready::Done(_)) => self.in_a_row = 0,
            Ok(Ready::NotYet) => {
                self.add_wait();
                self.longest = greater(self.longest, self.in_a_row);
            }
            Err(Failed) => {
                self.in_a_row = 0;
                self.cut = true;
            }
        }
        answer
    }

    fn close(&mut self) {
        if let Some(line) = &self.line {
            line.shut();
        }
        self.line = None;
    }
}

/// The greater of two counts.
fn greater(a: u64, b: u64) -> u64
    ensures { result ≡ spec.greater a b }
{
    if a < b {
        return b;
    }
    a
}
