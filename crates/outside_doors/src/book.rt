//! What doors keep of what was opened and of what came back.
ghost use Rattle.std.specs.Prelude.{◌≡◌, ◌≤◌, ◌==◌, [], ◌∷◌, Some, true, false, not, IfSome};
ghost use Rattle.outside_traits.specs.Causes.{Rose};
ghost use Rattle.outside_doors.specs.Counts.{added, added_if, with_door, with_opened, with_wire};
ghost use Rattle.outside_traits.specs.Told.{Lists};
ghost use Rattle.outside_polling.specs.Polls.{shut_so};
ghost use Rattle.outside_doors.specs.Returns.{none_told, told_at, try_told};

use crate::counted_wire::CountedWire;
use crate::counts::{Counts, DoorCounts};
use crate::returns::{Return, ReturnedDoors, Returns, Tries, Try};
use outside_polling::PollWire;
use std::alloc::{AllocError, Global};
use std::marker::Model;

/// What doors tell: their counts, how often a call has failed, the tries to open a door, and the wires and doors that
/// came back.
#[derive(Drop)]
pub struct Book<W: PollWire + Drop> {
    counts: Counts,
    faults: u64,
    tries: Tries,
    returns: Returns<W>,
    doors: ReturnedDoors,
}

impl<W: PollWire + Drop> Model for Book<W> {
    ghost use Rattle.outside_doors.specs.Returns.{DoorsTold};

    ghost Value = { DoorsTold };

    ghost view = { λ b. record {
      faults = b.faults;
      tally = b.counts;
      tries = b.tries;
      returned = b.returns;
      returned_doors = b.doors;
    } };
}

impl<W: PollWire + Drop> Book<W> {
    /// The book before anything was opened.
    pub fn new(alloc: Global) -> Book<W>
        ensures { result ≡ none_told }
    {
        Book {
            counts: Counts::new(),
            faults: 0,
            tries: Tries::new(alloc),
            returns: Returns::new(alloc),
            doors: ReturnedDoors::new(alloc),
        }
    }

    /// Makes room for so many more wires that come back.
    pub fn reserve(&mut self, more: usize) -> Result<(), AllocError>
        ensures { self.new ≡ self.old }
    {
        self.returns.reserve(more)
    }

    /// A door was opened there.
    pub fn open(&mut self, location: &str)
        ensures tally { self.new.tally ≡ with_opened self.old.tally }
        ensures faults { self.new.faults ≡ self.old.faults }
        ensures tries { Lists self.old.tries self.new.tries (try_told location.now true ∷ []) }
        ensures returned { self.new.returned ≡ self.old.returned }
        ensures returned_doors { self.new.returned_doors ≡ self.old.returned_doors }
    {
        self.counts.add_opened();
        self.tries.keep(location, true);
    }

    /// A door could not be opened there.
    pub fn fail(&mut self, location: &str)
        ensures tally { self.new.tally ≡ self.old.tally }
        ensures faults { self.new.faults ≡ added self.old.faults 1 }
        ensures rose { Rose self.old.faults self.new.faults }
        ensures later { self.old.faults ≤ self.new.faults }
        ensures tries { Lists self.old.tries self.new.tries (try_told location.now false ∷ []) }
        ensures returned { self.new.returned ≡ self.old.returned }
        ensures returned_doors { self.new.returned_doors ≡ self.old.returned_doors }
    {
        self.faults = self.faults.saturating_add(1);
        self.tries.keep(location, false);
    }

    /// A wire came back.
    pub fn wire_back(&mut self, wire: CountedWire<W>)
        ensures tally { self.new.tally ≡ with_wire (told_at (Some wire.door) (W.told wire.wire)) self.old.tally }
        ensures faults { self.new.faults ≡ self.old.faults }
        ensures tries { self.new.tries ≡ self.old.tries }
        ensures returned { Lists self.old.returned self.new.returned
            (shut_so (told_at (Some wire.door) (W.told wire.wire)) ∷ []) }
        ensures returned_doors { self.new.returned_doors ≡ self.old.returned_doors }
    {
        self.counts.add_wire(
            wire.is_lost(),
            wire.is_cut(),
            wire.has_ended(),
            wire.waits(),
        );
        self.returns.keep(wire);
    }

    /// A door came back.
    pub fn door_back(&mut self, door: &DoorCounts)
        ensures tally { self.new.tally ≡ with_door door.now self.old.tally }
        ensures faults { self.new.faults ≡ added_if (not (door.now.faults == 0)) self.old.faults }
        ensures tries { self.new.tries ≡ self.old.tries }
        ensures returned { self.new.returned ≡ self.old.returned }
        ensures returned_doors { Lists self.old.returned_doors self.new.returned_doors (door.now ∷ []) }
    {
        self.counts.add_door(door);
        self.doors.keep(door);
        if door.faults() != 0 {
            self.faults = self.faults.saturating_add(1);
        }
    }

    /// What was counted of what was opened and of what came back.
    pub fn counts(&self) -> &Counts
        ensures { result.now ≡ self.now.tally }
    {
        &self.counts
    }

    /// How often a door failed to open, or came back that had failed.
    pub fn faults(&self) -> u64
        ensures { result ≡ self.now.faults }
    {
        self.faults
    }

    /// The tries to open a door in order: all, where they are told.
    pub fn tries(&self) -> &[Try]
        ensures { IfSome self.now.tries (λ tries. result.now ≡ tries) }
    {
        self.tries.kept()
    }

    /// The wires that came back in order: all, where they are told.
    pub fn wires(&self) -> &[Return<W>]
        ensures { IfSome self.now.returned (λ wires. result.now ≡ wires) }
    {
        self.returns.kept()
    }

    /// What each door counted that came back, in order: all, where they are told.
    pub fn doors(&self) -> &[DoorCounts]
        ensures { IfSome self.now.returned_doors (λ doors. result.now ≡ doors) }
    {
        self.doors.kept()
    }
}
