//! What is kept of the tries to open a door and of the wires and doors that came back.
ghost use Rattle.std.specs.Prelude.{◌≡◌, [], ◌∷◌, Some, true, IfOk, IfSome};
ghost use Rattle.outside_traits.specs.Told.{Lists};
ghost use Rattle.outside_polling.specs.Polls.{shut_so};
ghost use Rattle.outside_doors.specs.Returns.{told_at, try_told};

use crate::counted_wire::CountedWire;
use crate::counts::DoorCounts;
use outside_polling::PollWire;
use std::alloc::{AllocError, Global};
use std::marker::Model;

/// A try to open a door.
#[derive(Drop)]
pub struct Try {
    location: String,
    opened: bool,
}

impl Model for Try {
    ghost use Rattle.std.specs.Prelude.{string_bytes};
    ghost use Rattle.outside_doors.specs.Returns.{TryTold};

    ghost Value = { TryTold };

    ghost view = { λ t. record { location = string_bytes t.location; opened = t.opened } };
}

impl Try {
    fn new(alloc: Global, location: &str, opened: bool) -> Result<Try, AllocError>
        ensures { IfOk result (λ made. made ≡ try_told location.now opened) }
    {
        let location = String::from_str(alloc, location)?;
        Ok(Try { location, opened })
    }

    /// Where it was.
    pub fn location(&self) -> &str
        ensures { result.now ≡ self.now.location }
    {
        self.location.as_str()
    }

    /// Whether the door was opened.
    pub fn was_opened(&self) -> bool
        ensures { result ≡ self.now.opened }
    {
        self.opened
    }
}

/// The tries to open a door in order, which are kept for as long as there is memory for it.
#[derive(Drop)]
pub struct Tries {
    alloc: Global,
    kept: Vec<Try>,
    is_whole: bool,
}

impl Model for Tries {
    ghost use Rattle.std.specs.Prelude.{Option, None, Some, List, if◌then◌else◌};
    ghost use Rattle.outside_doors.specs.Returns.{TryTold};

    ghost Value = { Option (List TryTold) };

    ghost view = { λ t. if t.is_whole then Some t.kept.items else None };
}

impl Tries {
    /// Those before the first.
    pub fn new(alloc: Global) -> Tries
        ensures { result ≡ Some [] }
    {
        Tries {
            alloc,
            kept: Vec::new(alloc),
            is_whole: true,
        }
    }

    /// Keeps one more try, at this location.
    pub fn keep(&mut self, location: &str, opened: bool)
        ensures { Lists self.old self.new (try_told location.now opened ∷ []) }
    {
        match Try::new(self.alloc, location, opened) {
            Ok(made) => self.push(made),
            Err(AllocError) => self.is_whole = false,
        }
    }

    fn push(&mut self, made: Try)
        ensures { Lists self.old self.new (made ∷ []) }
    {
        if self.kept.push(made).is_err() {
            self.is_whole = false;
        }
    }

    /// The tries that were kept: all, where they are told.
    pub fn kept(&self) -> &[Try]
        ensures { IfSome self.now (λ tries. result.now ≡ tries) }
    {
        self.kept.as_slice()
    }
}

/// A wire that came back, closed.
#[derive(Drop)]
pub struct Return<W: PollWire + Drop> {
    wire: CountedWire<W>,
}

impl<W: PollWire + Drop> Model for Return<W> {
    ghost use Rattle.std.specs.Prelude.{◌≡◌, Some, true};
    ghost use Rattle.outside_polling.specs.Polls.{PollTold};
    ghost use Rattle.outside_doors.specs.Returns.{told_at};

    ghost Value = { PollTold };

    ghost view = { λ r. told_at (Some r.wire.door) (W.told r.wire.wire) };

    ghost invariant = { λ r. (W.told r.wire.wire).wire.closed ≡ true };
}

impl<W: PollWire + Drop> Return<W> {
    /// Closes a wire that comes back.
    fn new(wire: CountedWire<W>) -> Return<W>
        ensures { result ≡ shut_so (told_at (Some wire.door) (W.told wire.wire)) }
    {
        let mut wire = wire;
        wire.close();
        Return { wire }
    }

    /// The wire itself, which is closed.
    pub fn wire(&self) -> &W
        ensures told { told_at self.now.wire.door (W.told result.now) ≡ self.now }
        ensures closed { self.now.wire.closed ≡ true }
    {
        self.wire.wire()
    }

    /// At which door it came: how many doors had been opened before that.
    pub fn door(&self) -> u64
        ensures { Some result ≡ self.now.wire.door }
    {
        self.wire.door()
    }

    /// How often it had answered that it can move nothing yet.
    pub fn waits(&self) -> u64
        ensures { result ≡ self.now.waits }
    {
        self.wire.waits()
    }

    /// Whether a read had failed.
    pub fn is_lost(&self) -> bool
        ensures { result ≡ self.now.wire.read_failed }
    {
        self.wire.is_lost()
    }

    /// Whether a write had failed before the wire was closed.
    pub fn is_cut(&self) -> bool
        ensures { result ≡ self.now.wire.write_failed }
    {
        self.wire.is_cut()
    }

    /// Whether a read had told the end of what comes in.
    pub fn has_ended(&self) -> bool
        ensures { result ≡ self.now.wire.ended }
    {
        self.wire.has_ended()
    }
}

/// The wires that came back in order, which are kept for as long as there is room for them.
#[derive(Drop)]
pub(crate) struct Returns<W: PollWire + Drop> {
    kept: Vec<Return<W>>,
    is_whole: bool,
}

impl<W: PollWire + Drop> Model for Returns<W> {
    ghost use Rattle.std.specs.Prelude.{Option, None, Some, List, if◌then◌else◌};
    ghost use Rattle.outside_polling.specs.Polls.{PollTold};

    ghost Value = { Option (List PollTold) };

    ghost view = { λ r. if r.is_whole then Some r.kept.items else None };
}

impl<W: PollWire + Drop> Returns<W> {
    pub(crate) fn new(alloc: Global) -> Returns<W>
        ensures { result ≡ Some [] }
    {
        Returns {
            kept: Vec::new(alloc),
            is_whole: true,
        }
    }

    /// Makes room for so many more wires.
    pub(crate) fn reserve(&mut self, more: usize) -> Result<(), AllocError>
        ensures { self.new ≡ self.old }
    {
        self.kept.reserve(more)
    }

    /// Keeps one more wire.
    pub(crate) fn keep(&mut self, wire: CountedWire<W>)
        ensures { Lists self.old self.new (shut_so (told_at (Some wire.door) (W.told wire.wire)) ∷ []) }
    {
        if self.kept.push(Return::new(wire)).is_err() {
            self.is_whole = false;
        }
    }

    /// The wires that were kept: all, where they are told.
    pub(crate) fn kept(&self) -> &[Return<W>]
        ensures { IfSome self.now (λ wires. result.now ≡ wires) }
    {
        self.kept.as_slice()
    }
}

/// What each door counted that came back, in order, which is kept for as long as there is memory for it.
#[derive(Drop)]
pub struct ReturnedDoors {
    kept: Vec<DoorCounts>,
    is_whole: bool,
}

impl Model for ReturnedDoors {
    ghost use Rattle.std.specs.Prelude.{Option, None, Some, List, if◌then◌else◌};
    ghost use Rattle.outside_doors.specs.Counts.{DoorTold};

    ghost Value = { Option (List DoorTold) };

    ghost view = { λ d. if d.is_whole then Some d.kept.items else None };
}

impl ReturnedDoors {
    /// Those before one came back.
    pub fn new(alloc: Global) -> ReturnedDoors
        ensures { result ≡ Some [] }
    {
        ReturnedDoors {
            kept: Vec::new(alloc),
            is_whole: true,
        }
    }

    /// Keeps what one more door counted.
    pub fn keep(&mut self, door: &DoorCounts)
        ensures { Lists self.old self.new (door.now ∷ []) }
    {
        if self.kept.push(door.copy()).is_err() {
            self.is_whole = false;
        }
    }

    /// What the doors counted that were kept: all, where they are told.
    pub fn kept(&self) -> &[DoorCounts]
        ensures { IfSome self.now (λ doors. result.now ≡ doors) }
    {
        self.kept.as_slice()
    }
}
