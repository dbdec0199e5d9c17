ghost use Rattle.std.specs.Prelude.{◌≡◌, ◌++◌, [], ◌∷◌, Some, None, IfOk, IfSome, OnErr, OnOk, drop, is_ok};
ghost use Rattle.outside_traits.specs.Causes.{HasCause};
ghost use Rattle.outside_doors.specs.Counts.{untried, with_opened};
ghost use Rattle.outside_memory_doors.specs.Memory.{Opens};
ghost use Rattle.outside_traits.specs.Told.{Lists};
ghost use Rattle.outside_doors.specs.Returns.{none_told, try_told};

use crate::poll_wires::ScriptedPollWire;
use crate::queue::Queue;
use crate::scripted_door::ScriptedDoor;
use outside_doors::{Book, CountedWire, Counts, DoorCounts, Doors, Return, Try};
use outside_traits::Failed;
use std::alloc::{AllocError, Global};
use std::marker::Model;

/// Doors in memory that follow a script: those that were handed in open in order, or fail where it says so, and behind
/// the last of them come doors at which nobody comes.
#[derive(Drop)]
pub struct ScriptedDoors {
    alloc: Global,
    coming: Queue<Option<ScriptedDoor>>,
    book: Book<ScriptedPollWire>,
}

impl Model for ScriptedDoors {
    ghost use Rattle.outside_memory_doors.specs.Memory.{ScriptedHouse};

    ghost Value = { ScriptedHouse };

    ghost view = { λ d. record { coming = d.coming; book = d.book } };
}

impl ScriptedDoors {
    pub fn new(alloc: Global) -> ScriptedDoors
        ensures { result ≡ record { coming = []; book = none_told } }
    {
        ScriptedDoors {
            alloc,
            coming: Queue::new(alloc),
            book: Book::new(alloc),
        }
    }

    /// Has a door open behind those that were handed in before, and makes room for its wires.
    pub fn expect(&mut self, door: ScriptedDoor) -> Result<(), AllocError>
        ensures more { OnOk result (self.new.coming ≡ self.old.coming ++ Some door ∷ []) }
        ensures same { OnErr result (self.new.coming ≡ self.old.coming) }
        ensures book { self.new.book ≡ self.old.book }
    {
        self.book.reserve(door.expected())?;
        self.coming.push(Some(door))?;
        Ok(())
    }

    /// Has a door fail to open behind those that were handed in before.
    pub fn expect_failure(&mut self) -> Result<(), AllocError>
        ensures more { OnOk result (self.new.coming ≡ self.old.coming ++ None ∷ []) }
        ensures same { OnErr result (self.new.coming ≡ self.old.coming) }
        ensures book { self.new.book ≡ self.old.book }
    {
        self.coming.push(None)?;
        Ok(())
    }

    /// What was counted of what was opened and of what came back.
    pub fn counts(&self) -> &Counts
        ensures { result.now ≡ self.now.book.tally }
    {
        self.book.counts()
    }

    /// How often a door failed to open, or came back that had failed.
    pub fn faults(&self) -> u64
        ensures { result ≡ self.now.book.faults }
    {
        self.book.faults()
    }

    /// The tries to open a door in order: all, where they are told.
    pub fn tries(&self) -> &[Try]
        ensures { IfSome self.now.book.tries (λ tries. result.now ≡ tries) }
    {
        self.book.tries()
    }

    /// The wires that came back in order: all, where they are told.
    pub fn returned(&self) -> &[Return<ScriptedPollWire>]
        ensures { IfSome self.now.book.returned (λ wires. result.now ≡ wires) }
    {
        self.book.wires()
    }

    /// What each door counted that came back, in order: all, where they are told.
    pub fn returned_doors(&self) -> &[DoorCounts]
        ensures { IfSome self.now.book.returned_doors (λ doors. result.now ≡ doors) }
    {
        self.book.doors()
    }
}

impl Doors for ScriptedDoors {
    type D = ScriptedDoor;

    ghost told = { λ d. d.book };

    fn open(&mut self, location: &str) -> Result<ScriptedDoor, Failed>
        ensures scripted { Opens self.old.book.tally.opened self.old.coming result }
        ensures coming { self.new.coming ≡ drop 1 self.old.coming }
        ensures untried { IfOk result (λ door. door.told ≡ untried self.old.book.tally.opened) }
        ensures opened { IfOk result (λ _. self.new.book.tally ≡ with_opened self.old.book.tally) }
        ensures unopened { OnErr result (self.new.book.tally ≡ self.old.book.tally) }
        ensures listed { Lists self.old.book.tries self.new.book.tries (try_told location.now (is_ok result) ∷ []) }
        ensures returned { self.new.book.returned ≡ self.old.book.returned }
        ensures returned_doors { self.new.book.returned_doors ≡ self.old.book.returned_doors }
        ensures cause { HasCause self.old.book.faults self.new.book.faults result }
    {
        let place = self.book.counts().opened();
        let door = match self.coming.next() {
            None => ScriptedDoor::new(self.alloc),
            Some(Some(door)) => door,
            Some(None) => {
                self.book.fail(location);
                return Err(Failed);
            }
        };
        self.book.open(location);
        Ok(door.anew(place))
    }

    fn wire_back(&mut self, wire: CountedWire<ScriptedPollWire>) {
        self.book.wire_back(wire);
    }

    fn door_back(&mut self, door: ScriptedDoor) {
        self.book.door_back(door.counts());
    }
}
