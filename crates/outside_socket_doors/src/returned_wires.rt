//! What is kept of the wires that came back.
ghost use Rattle.std.specs.Prelude.{◌≡◌, [], ◌∷◌, Some, IfSome};
ghost use Rattle.outside_traits.specs.Told.{Lists};
ghost use Rattle.outside_polling.specs.Polls.{shut_so};
ghost use Rattle.outside_socket_doors.specs.Lines.{told_by_line};

use crate::door_wire::DoorWire;
use std::alloc::Global;
use std::io::Eprint;
use std::marker::Model;
use std::net::Net;
use std::rt::Clock;

/// What is kept of a wire that came back: how its calls had gone, and none of its bytes.
#[derive(Drop)]
pub struct ReturnedWire {
    lost: bool,
    cut: bool,
    ended: bool,
    waits: u64,
    in_a_row: u64,
    longest: u64,
    door: u64,
}

impl Model for ReturnedWire {
    ghost use Rattle.std.specs.Prelude.{true};
    ghost use Rattle.outside_polling.specs.Polls.{PollTold};
    ghost use Rattle.outside_socket_doors.specs.Lines.{told_by_line};

    ghost Value = { PollTold };

    ghost view = { λ w. told_by_line (record {
      read_failed = w.lost;
      write_failed = w.cut;
      ended = w.ended;
      closed = true;
      waits = w.waits;
      in_a_row = w.in_a_row;
      longest = w.longest;
      door = w.door;
    }) };
}

impl ReturnedWire {
    /// What is kept of a wire.
    fn of<H: Net + Clock + Eprint + Copy + Drop>(wire: &DoorWire<H>) -> ReturnedWire
        ensures { result ≡ shut_so (told_by_line wire.now) }
    {
        ReturnedWire {
            lost: wire.is_lost(),
            cut: wire.is_cut(),
            ended: wire.has_ended(),
            waits: wire.waits(),
            in_a_row: wire.in_a_row(),
            longest: wire.longest(),
            door: wire.door(),
        }
    }

    /// At which door it came: how many doors had been opened before that.
    pub fn door(&self) -> u64
        ensures { Some result ≡ self.now.wire.door }
    {
        self.door
    }

    /// How often it had answered that it can move nothing yet.
    pub fn waits(&self) -> u64
        ensures { result ≡ self.now.waits }
    {
        self.waits
    }

    /// How often in a row it had answered so when it came back.
    pub fn in_a_row(&self) -> u64
        ensures { result ≡ self.now.in_a_row }
    {
        self.in_a_row
    }

    /// How often in the longest row that a write had come to.
    pub fn longest(&self) -> u64
        ensures { result ≡ self.now.longest }
    {
        self.longest
    }

    /// Whether a read had failed.
    pub fn is_lost(&self) -> bool
        ensures { result ≡ self.now.wire.read_failed }
    {
        self.lost
    }

    /// Whether a write had failed before the wire was closed.
    pub fn is_cut(&self) -> bool
        ensures { result ≡ self.now.wire.write_failed }
    {
        self.cut
    }

    /// Whether a read had told the end of what comes in.
    pub fn has_ended(&self) -> bool
        ensures { result ≡ self.now.wire.ended }
    {
        self.ended
    }
}

/// What is kept of the wires that came back, in order, for as long as there is memory for it.
#[derive(Drop)]
pub(crate) struct ReturnedWires {
    kept: Vec<ReturnedWire>,
    is_whole: bool,
}

impl Model for ReturnedWires {
    ghost use Rattle.std.specs.Prelude.{Option, None, Some, List, if◌then◌else◌};
    ghost use Rattle.outside_polling.specs.Polls.{PollTold};

    ghost Value = { Option (List PollTold) };

    ghost view = { λ w. if w.is_whole then Some w.kept.items else None };
}

impl ReturnedWires {
    /// Those before one came back.
    pub(crate) fn new(alloc: Global) -> ReturnedWires
        ensures { result ≡ Some [] }
    {
        ReturnedWires {
            kept: Vec::new(alloc),
            is_whole: true,
        }
    }

    /// Keeps how the calls of one more wire had gone.
    pub(crate) fn keep<H: Net + Clock + Eprint + Copy + Drop>(&mut self, wire: &DoorWire<H>)
        ensures { Lists self.old self.new (shut_so (told_by_line wire.now) ∷ []) }
    {
        if self.kept.push(ReturnedWire::of(wire)).is_err() {
            self.is_whole = false;
        }
    }

    /// The wires that were kept: all, where they are told.
    pub(crate) fn kept(&self) -> &[ReturnedWire]
        ensures { IfSome self.now (λ wires. result.now ≡ wires) }
    {
        self.kept.as_slice()
    }
}
