ghost use Rattle.std.specs.Prelude.{◌≡◌, ◌++◌, [], ◌∷◌, IfOk, IfSome, IsOk, OnErr, OnOk, drop, is_ok};
ghost use Rattle.outside_traits.specs.Causes.{HasCause};
ghost use Rattle.outside_doors.specs.Counts.{untried, with_opened};
ghost use Rattle.outside_memory_doors.specs.Memory.{next_entry};
ghost use Rattle.outside_traits.specs.Told.{Lists};
ghost use Rattle.outside_doors.specs.Returns.{none_told, try_told};

use crate::poll_wires::UnfailingPollWire;
use crate::queue::Queue;
use crate::unfailing_door::UnfailingDoor;
use outside_doors::{Book, CountedWire, Counts, DoorCounts, Doors, Return, Try};
use outside_traits::Failed;
use std::alloc::{AllocError, Global};
use std::marker::Model;

/// Doors in memory that never fail to open: those that were handed in, in order, and behind the last of them doors at
/// which nobody comes.
#[derive(Drop)]
pub struct UnfailingDoors {
    alloc: Global,
    coming: Queue<UnfailingDoor>,
    book: Book<UnfailingPollWire>,
}

impl Model for UnfailingDoors {
    ghost use Rattle.outside_memory_doors.specs.Memory.{UnfailingHouse};

    ghost Value = { UnfailingHouse };

    ghost view = { λ d. record { coming = d.coming; book = d.book } };
}

impl UnfailingDoors {
    pub fn new(alloc: Global) -> UnfailingDoors
        ensures { result ≡ record { coming = []; book = none_told } }
    {
        UnfailingDoors {
            alloc,
            coming: Queue::new(alloc),
            book: Book::new(alloc),
        }
    }

    /// Has a door open behind those that were handed in before, and makes room for its wires.
    pub fn expect(&mut self, door: UnfailingDoor) -> Result<(), AllocError>
        ensures more { OnOk result (self.new.coming ≡ self.old.coming ++ door ∷ []) }
        ensures same { OnErr result (self.new.coming ≡ self.old.coming) }
        ensures book { self.new.book ≡ self.old.book }
    {
        self.book.reserve(door.expected())?;
        self.coming.push(door)?;
        Ok(())
    }

    /// What was counted of what was opened and of what came back.
    pub fn counts(&self) -> &Counts
        ensures { result.now ≡ self.now.book.tally }
    {
        self.book.counts()
    }

    /// How often a door came back that had failed.
    pub fn faults(&self) -> u64
        ensures { result ≡ self.now.book.faults }
    {
        self.book.faults()
    }

    /// The tries to open a door in order: all, where they are told.
    pub fn tries(&self) -> &[Try]
        ensures { IfSome self.now.book.tries (λ tries. result.now ≡ tries) }
    {
        self.book.tries()
    }

    /// The wires that came back in order: all, where they are told.
    pub fn returned(&self) -> &[Return<UnfailingPollWire>]
        ensures { IfSome self.now.book.returned (λ wires. result.now ≡ wires) }
    {
        self.book.wires()
    }

    /// What each door counted that came back, in order: all, where they are told.
    pub fn returned_doors(&self) -> &[DoorCounts]
        ensures { IfSome self.now.book.returned_doors (λ doors. result.now ≡ doors) }
    {
        self.book.doors()
    }
}

impl Doors for UnfailingDoors {
    type D = UnfailingDoor;

    ghost told = { λ d. d.book };

    fn open(&mut self, location: &str) -> Result<UnfailingDoor, Failed>
        ensures unfailed { IsOk result }
        ensures door { IfOk result (λ door. door ≡ next_entry self.old.book.tally.opened self.old.coming) }
        ensures coming { self.new.coming ≡ drop 1 self.old.coming }
        ensures untried { IfOk result (λ door. door.told ≡ untried self.old.book.tally.opened) }
        ensures opened { IfOk result (λ _. self.new.book.tally ≡ with_opened self.old.book.tally) }
        ensures unopened { OnErr result (self.new.book.tally ≡ self.old.book.tally) }
        ensures listed { Lists self.old.book.tries self.new.book.tries (try_told location.now (is_ok result) ∷ []) }
        ensures returned { self.new.book.returned ≡ self.old.book.returned }
        ensures returned_doors { self.new.book.returned_doors ≡ self.old.book.returned_doors }
        ensures cause { HasCause self.old.book.faults self.new.book.faults result }
    {
        let place = self.book.counts().opened();
        self.book.open(location);
        let door = match self.coming.next() {
            None => UnfailingDoor::new(self.alloc, 0),
            Some(door) => door,
        };
        Ok(door.anew(place))
    }

    fn wire_back(&mut self, wire: CountedWire<UnfailingPollWire>) {
        self.book.wire_back(wire);
    }

    fn door_back(&mut self, door: UnfailingDoor) {
        self.book.door_back(door.counts());
    }
}
