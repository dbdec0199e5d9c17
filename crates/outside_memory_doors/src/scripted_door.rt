ghost use Rattle.std.specs.Prelude.{◌≡◌, ◌<◌, ◌++◌, [], ◌∷◌, Ok, Some, false, IsTrue, OnErr, OnOk, drop};
ghost use Rattle.outside_traits.specs.Causes.{HasCause};
ghost use Rattle.outside_doors.specs.Counts.{rested, untried};
ghost use Rattle.outside_doors.specs.Attempts.{ComesAt, IfCame, closed_after, waits_after, wires_after};
ghost use Rattle.outside_doors.specs.Attempts.{waits_in_a_row_after, rests_in_a_row_after};
ghost use Rattle.outside_polling.specs.Early.{hasty};
ghost use Rattle.outside_memory_doors.specs.Memory.{Answers, scripted_line, told_by_scripted, told_of};
ghost use Rattle.outside_memory_doors.specs.declared.visit.Visit.TheVariants.{Comes, Fails, Nobody};

use crate::new_wire::NewWire;
use crate::poll_wires::ScriptedPollWire;
use crate::queue::Queue;
use crate::visit::Visit;
use outside_doors::{Accept, CountedWire, Door, DoorCounts};
use outside_traits::Failed;
use std::alloc::{AllocError, Global};
use std::marker::Model;

/// A door in memory that follows a script: what each try comes to, in order, and behind the last of them nobody any
/// more.
#[derive(Drop)]
pub struct ScriptedDoor {
    alloc: Global,
    visits: Queue<Visit>,
    counts: DoorCounts,
}

impl Model for ScriptedDoor {
    ghost use Rattle.outside_memory_doors.specs.Memory.{ScriptedEntry};

    ghost Value = { ScriptedEntry };

    ghost view = { λ d. record { visits = d.visits; told = d.counts } };
}

impl ScriptedDoor {
    /// A door at which nobody comes any more.
    pub fn new(alloc: Global) -> ScriptedDoor
        ensures { result ≡ record { visits = []; told = untried 0 } }
    {
        ScriptedDoor {
            alloc,
            visits: Queue::new(alloc),
            counts: DoorCounts::new(0),
        }
    }

    /// Has a connection come next, on which these bytes come in, and `room` bytes go out in all, at most `piece` a call
    /// either way. Of its calls, from 0, those of the numbers in `early` come too early; of all others, from 0 again,
    /// those of the numbers in `failing` fail.
    pub fn expect(
        &mut self,
        bytes: &[u8],
        room: usize,
        piece: usize,
        failing: &[u64],
        early: &[u64],
    ) -> Result<(), AllocError>
        requires { 0 < piece }
        ensures more { OnOk result (self.new.visits ≡ self.old.visits
            ++ Comes (hasty (scripted_line failing.now piece bytes.now room) early.now) ∷ []) }
        ensures same { OnErr result (self.new.visits ≡ self.old.visits) }
        ensures told { self.new.told ≡ self.old.told }
    {
        let wire = ScriptedPollWire::new(self.alloc, bytes, room, piece, failing, early)?;
        self.visits.push(Visit::Comes(NewWire::new(wire)))?;
        Ok(())
    }

    /// Has nobody come at the next try.
    pub fn expect_nobody(&mut self) -> Result<(), AllocError>
        ensures more { OnOk result (self.new.visits ≡ self.old.visits ++ Nobody ∷ []) }
        ensures same { OnErr result (self.new.visits ≡ self.old.visits) }
        ensures told { self.new.told ≡ self.old.told }
    {
        self.visits.push(Visit::Nobody)?;
        Ok(())
    }

    /// Has the next try fail.
    pub fn expect_failure(&mut self) -> Result<(), AllocError>
        ensures more { OnOk result (self.new.visits ≡ self.old.visits ++ Fails ∷ []) }
        ensures same { OnErr result (self.new.visits ≡ self.old.visits) }
        ensures told { self.new.told ≡ self.old.told }
    {
        self.visits.push(Visit::Fails)?;
        Ok(())
    }

    /// How many visits there are to come, of which each may be a connection.
    pub(crate) fn expected(&self) -> usize {
        self.visits.len()
    }

    /// The same door as it is opened, behind so many others.
    pub(crate) fn anew(self, place: u64) -> ScriptedDoor
        ensures { result ≡ record self { told = untried place } }
    {
        let mut door = self;
        door.counts = DoorCounts::new(place);
        door
    }

    /// What the door counts.
    pub fn counts(&self) -> &DoorCounts
        ensures { result.now ≡ self.now.told }
    {
        &self.counts
    }
}

impl Door for ScriptedDoor {
    type W = CountedWire<ScriptedPollWire>;

    ghost told = { λ d. d.told };

    fn try_accept(&mut self) -> Result<Accept<CountedWire<ScriptedPollWire>>, Failed>
        ensures scripted { self.old.told.closed ≡ false → Answers self.old result }
        ensures visits { self.old.told.closed ≡ false → self.new.visits ≡ drop 1 self.old.visits }
        ensures comes { IfCame result (λ wire. ComesAt self.old.told.place (told_of told_by_scripted wire)) }
        ensures place { self.new.told.place ≡ self.old.told.place }
        ensures wires { self.new.told.wires ≡ wires_after result self.old.told.wires }
        ensures waits { self.new.told.waits ≡ waits_after result self.old.told.waits }
        ensures rests { self.new.told.rests ≡ self.old.told.rests }
        ensures waits_row { self.new.told.waits_in_a_row ≡ waits_in_a_row_after result self.old.told.waits_in_a_row }
        ensures rests_row { self.new.told.rests_in_a_row ≡ rests_in_a_row_after result self.old.told.rests_in_a_row }
        ensures closed { self.new.told.closed ≡ closed_after result self.old.told.closed }
        ensures stays { IsTrue self.old.told.closed → result ≡ Ok Accept.Closed }
        ensures cause { HasCause self.old.told.faults self.new.told.faults result }
    {
        if self.counts.is_closed() {
            return Ok(Accept::Closed);
        }
        match self.visits.next() {
            None => {
                self.counts.close();
                Ok(Accept::Closed)
            }
            Some(Visit::Comes(wire)) => {
                self.counts.add_wire();
                Ok(Accept::Came(wire.into_counted(self.counts.place())))
            }
            Some(Visit::Nobody) => {
                self.counts.add_wait();
                Ok(Accept::NotYet)
            }
            Some(Visit::Fails) => {
                self.counts.add_fault();
                Err(Failed)
            }
        }
    }

    fn rest(&mut self)
        ensures rested { self.new ≡ record self.old { told = rested self.old.told } }
    {
        self.counts.add_rest();
    }
}
