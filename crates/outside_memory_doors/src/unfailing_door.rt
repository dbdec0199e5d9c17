ghost use Rattle.std.specs.Prelude.{◌≡◌, ◌++◌, [], ◌∷◌, Ok, Some, false, IsTrue, OnErr, OnOk, IsOk, drop};
ghost use Rattle.outside_traits.specs.Causes.{HasCause};
ghost use Rattle.outside_doors.specs.Counts.{rested, untried};
ghost use Rattle.outside_doors.specs.Attempts.{ComesAt, IfCame, closed_after, waits_after, wires_after};
ghost use Rattle.outside_doors.specs.Attempts.{waits_in_a_row_after, rests_in_a_row_after};
ghost use Rattle.outside_polling.specs.Early.{hasty};
ghost use Rattle.outside_memory_doors.specs.Memory.{UnfailinglyAnswers, unfailed_line, quiet_after, told_by_unfailed, told_of};

use crate::new_wire::NewWire;
use crate::poll_wires::UnfailingPollWire;
use crate::queue::Queue;
use outside_doors::{Accept, CountedWire, Door, DoorCounts};
use outside_traits::Failed;
use std::alloc::{AllocError, Global};
use std::marker::Model;

/// A door in memory that never fails: a connection comes at each try until none is left, then nobody for so many tries,
/// and then nobody any more.
#[derive(Drop)]
pub struct UnfailingDoor {
    alloc: Global,
    coming: Queue<NewWire<UnfailingPollWire>>,
    quiet: u64,
    counts: DoorCounts,
}

impl Model for UnfailingDoor {
    ghost use Rattle.outside_memory_doors.specs.Memory.{UnfailingEntry};

    ghost Value = { UnfailingEntry };

    ghost view = { λ d. record { coming = d.coming; quiet = d.quiet; told = d.counts } };
}

impl UnfailingDoor {
    /// A door at which nobody comes for so many tries, and then nobody any more.
    pub fn new(alloc: Global, quiet: u64) -> UnfailingDoor
        ensures { result ≡ record { coming = []; quiet = quiet; told = untried 0 } }
    {
        UnfailingDoor {
            alloc,
            coming: Queue::new(alloc),
            quiet,
            counts: DoorCounts::new(0),
        }
    }

    /// Has one more connection come, on which these bytes come in, and `room` bytes go out in all. Its calls of the
    /// numbers in `early`, from 0, come too early: reads and writes are counted together.
    pub fn expect(&mut self, bytes: &[u8], room: usize, early: &[u64]) -> Result<(), AllocError>
        ensures more { OnOk result (self.new.coming ≡ self.old.coming
            ++ hasty (unfailed_line bytes.now room) early.now ∷ []) }
        ensures same { OnErr result (self.new.coming ≡ self.old.coming) }
        ensures quiet { self.new.quiet ≡ self.old.quiet }
        ensures told { self.new.told ≡ self.old.told }
    {
        let wire = UnfailingPollWire::new(self.alloc, bytes, room, early)?;
        self.coming.push(NewWire::new(wire))?;
        Ok(())
    }

    /// How many connections are to come.
    pub(crate) fn expected(&self) -> usize {
        self.coming.len()
    }

    /// The same door as it is opened, behind so many others.
    pub(crate) fn anew(self, place: u64) -> UnfailingDoor
        ensures { result ≡ record self { told = untried place } }
    {
        let mut door = self;
        door.counts = DoorCounts::new(place);
        door
    }

    /// What the door counts.
    pub fn counts(&self) -> &DoorCounts
        ensures { result.now ≡ self.now.told }
    {
        &self.counts
    }
}

impl Door for UnfailingDoor {
    type W = CountedWire<UnfailingPollWire>;

    ghost told = { λ d. d.told };

    fn try_accept(&mut self) -> Result<Accept<CountedWire<UnfailingPollWire>>, Failed>
        ensures unfailed { IsOk result }
        ensures answer { self.old.told.closed ≡ false → UnfailinglyAnswers self.old result }
        ensures coming { self.old.told.closed ≡ false → self.new.coming ≡ drop 1 self.old.coming }
        ensures quiet { self.old.told.closed ≡ false → self.new.quiet ≡ quiet_after self.old.coming self.old.quiet }
        ensures comes { IfCame result (λ wire. ComesAt self.old.told.place (told_of told_by_unfailed wire)) }
        ensures place { self.new.told.place ≡ self.old.told.place }
        ensures wires { self.new.told.wires ≡ wires_after result self.old.told.wires }
        ensures waits { self.new.told.waits ≡ waits_after result self.old.told.waits }
        ensures rests { self.new.told.rests ≡ self.old.told.rests }
        ensures waits_row { self.new.told.waits_in_a_row ≡ waits_in_a_row_after result self.old.told.waits_in_a_row }
        ensures rests_row { self.new.told.rests_in_a_row ≡ rests_in_a_row_after result self.old.told.rests_in_a_row }
        ensures closed { self.new.told.closed ≡ closed_after result self.old.told.closed }
        ensures stays { IsTrue self.old.told.closed → result ≡ Ok Accept.Closed }
        ensures cause { HasCause self.old.told.faults self.new.told.faults result }
    {
        if self.counts.is_closed() {
            return Ok(Accept::Closed);
        }
        if let Some(wire) = self.coming.next() {
            self.counts.add_wire();
            return Ok(Accept::Came(wire.into_counted(self.counts.place())));
        }
        if self.quiet == 0 {
            self.counts.close();
            return Ok(Accept::Closed);
        }
        self.quiet -= 1;
        self.counts.add_wait();
        Ok(Accept::NotYet)
    }

    fn rest(&mut self)
        ensures rested { self.new ≡ record self.old { told = rested self.old.told } }
    {
        self.counts.add_rest();
    }
}
