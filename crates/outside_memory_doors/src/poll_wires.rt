//! The wires that doors in memory give.
ghost use Rattle.std.specs.Prelude.{◌≡◌, ◌<◌, ◌↔◌, false, Ok, IfOk, Contains, length};
ghost use Rattle.std.specs.Io.{ReadsAtMost, WritesAtMost};
ghost use Rattle.outside_polling.specs.Polls.{done, longest_after, row_after, Polls, ReadsWire, WritesWire};
ghost use Rattle.outside_polling.specs.Early.{hasty, IsCalled};
ghost use Rattle.outside_polling.specs.declared.traits.Ready.TheVariants.{NotYet};
ghost use Rattle.outside_memory_doors.specs.Memory.{polled, scripted_line, told_by_scripted, told_by_unfailed, unfailed_line};

use outside_polling::{EarlyWire, PollWire, Ready};
use outside_traits::{Failed, Script, ScriptedWire, UnfailingWire};
use std::alloc::{AllocError, Global};
use std::marker::Model;

/// A wire in memory that never fails but for want of room, and of which some calls come too early.
#[derive(Drop)]
pub struct UnfailingPollWire {
    wire: EarlyWire<UnfailingWire>,
}

impl Model for UnfailingPollWire {
    ghost use Rattle.outside_polling.specs.Early.{Hasty};
    ghost use Rattle.outside_traits.specs.Wires.{UnfailingLine};

    ghost Value = { Hasty UnfailingLine };

    ghost view = { λ w. w.wire };
}

impl UnfailingPollWire {
    /// A wire on which these bytes come in, and `room` bytes go out in all. Its calls of the numbers in `early`, from 0,
    /// come too early.
    pub fn new(
        alloc: Global,
        bytes: &[u8],
        room: usize,
        early: &[u64],
    ) -> Result<UnfailingPollWire, AllocError>
        ensures { IfOk result (λ made. made ≡ hasty (unfailed_line bytes.now room) early.now) }
    {
        let wire = unfailing_wire(alloc, bytes, room)?;
        let wire = EarlyWire::new(alloc, wire, early)?;
        Ok(UnfailingPollWire { wire })
    }

    /// What was read.
    pub fn given(&self) -> &[u8]
        ensures { result.now ≡ self.now.wire.tape.given }
    {
        self.wire.wire().given()
    }

    /// What was written.
    pub fn taken(&self) -> &[u8]
        ensures { result.now ≡ self.now.wire.shelf.taken }
    {
        self.wire.wire().taken()
    }
}

impl PollWire for UnfailingPollWire {
    ghost told = { λ w. polled told_by_unfailed w };

    fn try_read(&mut self, into: &mut [u8]) -> Result<Ready, Failed>
        ensures early { result ≡ Ok NotYet ↔
            ((self.old.wire.closed ≡ false) × Contains self.old.early self.old.calls) }
        ensures called { self.old.wire.closed ≡ false → IsCalled self.old self.new }
        ensures bound { ReadsAtMost (done result) into.new }
        ensures reads { Polls result (polled told_by_unfailed self.old) (polled told_by_unfailed self.new)
            (λ answer. ReadsWire (length into.old) into.new answer) }
        ensures row { self.new.in_a_row ≡ row_after result self.old.in_a_row }
        ensures longest { self.new.longest ≡ self.old.longest }
    {
        self.wire.try_read(into)
    }

    fn try_write(&mut self, from: &[u8]) -> Result<Ready, Failed>
        ensures early { result ≡ Ok NotYet ↔
            ((self.old.wire.closed ≡ false) × Contains self.old.early self.old.calls) }
        ensures called { self.old.wire.closed ≡ false → IsCalled self.old self.new }
        ensures bound { WritesAtMost (done result) from.now }
        ensures writes { Polls result (polled told_by_unfailed self.old) (polled told_by_unfailed self.new)
            (λ answer. WritesWire from.now answer) }
        ensures row { self.new.in_a_row ≡ row_after result self.old.in_a_row }
        ensures longest { self.new.longest ≡ longest_after result self.old.longest self.old.in_a_row }
    {
        self.wire.try_write(from)
    }

    fn close(&mut self) {
        self.wire.close();
    }
}

/// A wire in memory that follows a script, and of which some calls come too early.
#[derive(Drop)]
pub struct ScriptedPollWire {
    wire: EarlyWire<ScriptedWire>,
}

impl Model for ScriptedPollWire {
    ghost use Rattle.outside_polling.specs.Early.{Hasty};
    ghost use Rattle.outside_traits.specs.Wires.{ScriptedLine};

    ghost Value = { Hasty ScriptedLine };

    ghost view = { λ w. w.wire };
}

impl ScriptedPollWire {
    /// A wire on which these bytes come in, and `room` bytes go out in all, at most `piece` a call either way. Of its
    /// calls, from 0, those of the numbers in `early` come too early; of all others, from 0 again, those of the numbers
    /// in `failing` fail.
    pub fn new(
        alloc: Global,
        bytes: &[u8],
        room: usize,
        piece: usize,
        failing: &[u64],
        early: &[u64],
    ) -> Result<ScriptedPollWire, AllocError>
        requires { 0 < piece }
        ensures { IfOk result (λ made. made ≡ hasty (scripted_line failing.now piece bytes.now room) early.now) }
    {
        let wire = scripted_wire(alloc, bytes, room, piece, failing)?;
        let wire = EarlyWire::new(alloc, wire, early)?;
        Ok(ScriptedPollWire { wire })
    }

    /// What was read.
    pub fn given(&self) -> &[u8]
        ensures { result.now ≡ self.now.wire.tape.given }
    {
        self.wire.wire().given()
    }

    /// What was written.
    pub fn taken(&self) -> &[u8]
        ensures { result.now ≡ self.now.wire.shelf.taken }
    {
        self.wire.wire().taken()
    }
}

impl PollWire for ScriptedPollWire {
    ghost told = { λ w. polled told_by_scripted w };

    fn try_read(&mut self, into: &mut [u8]) -> Result<Ready, Failed>
        ensures early { result ≡ Ok NotYet ↔
            ((self.old.wire.closed ≡ false) × Contains self.old.early self.old.calls) }
        ensures called { self.old.wire.closed ≡ false → IsCalled self.old self.new }
        ensures bound { ReadsAtMost (done result) into.new }
        ensures reads { Polls result (polled told_by_scripted self.old) (polled told_by_scripted self.new)
            (λ answer. ReadsWire (length into.old) into.new answer) }
        ensures row { self.new.in_a_row ≡ row_after result self.old.in_a_row }
        ensures longest { self.new.longest ≡ self.old.longest }
    {
        self.wire.try_read(into)
    }

    fn try_write(&mut self, from: &[u8]) -> Result<Ready, Failed>
        ensures early { result ≡ Ok NotYet ↔
            ((self.old.wire.closed ≡ false) × Contains self.old.early self.old.calls) }
        ensures called { self.old.wire.closed ≡ false → IsCalled self.old self.new }
        ensures bound { WritesAtMost (done result) from.now }
        ensures writes { Polls result (polled told_by_scripted self.old) (polled told_by_scripted self.new)
            (λ answer. WritesWire from.now answer) }
        ensures row { self.new.in_a_row ≡ row_after result self.old.in_a_row }
        ensures longest { self.new.longest ≡ longest_after result self.old.longest self.old.in_a_row }
    {
        self.wire.try_write(from)
    }

    fn close(&mut self) {
        self.wire.close();
    }
}

/// A wire that was not used yet, and waits.
fn unfailing_wire(alloc: Global, bytes: &[u8], room: usize) -> Result<UnfailingWire, AllocError>
    ensures { IfOk result (λ wire. wire ≡ unfailed_line bytes.now room) }
{
    UnfailingWire::new(alloc, bytes, room)
}

/// The same by a script.
fn scripted_wire(
    alloc: Global,
    bytes: &[u8],
    room: usize,
    piece: usize,
    failing: &[u64],
) -> Result<ScriptedWire, AllocError>
    requires { 0 < piece }
    ensures { IfOk result (λ wire. wire ≡ scripted_line failing.now piece bytes.now room) }
{
    let script = Script::new(alloc, failing)?;
    ScriptedWire::new(alloc, bytes, room, piece, script)
}
