ghost use Rattle.std.specs.Prelude.{◌≡◌, ◌<◌, ◌||◌, ◌↔◌, ◌⊎◌, [], ◌∷◌, true, false, not, Ok, None, Some, IsTrue, IsErr, IfOk, IfSome, MatchResult, length, min};
ghost use Rattle.std.specs.Io.{ReadsAtMost, WritesAtMost};
ghost use Rattle.std.specs.Io.KnownBytes.{ReadConsumes, WriteAppends};
ghost use Rattle.outside_traits.specs.Calls.{moved, tells_end};
ghost use Rattle.outside_traits.specs.Told.{Lists};
ghost use Rattle.outside_traits.specs.declared.calls.WireCall.TheVariants.{Read, Wrote};
ghost use Rattle.outside_traits.specs.Memory.{room_left};
ghost use Rattle.outside_traits.specs.Wires.{readable};

use crate::calls::{Calls, WireCall};
use crate::errors::Failed;
use crate::memory::Shelf;
use crate::tape::Tape;
use crate::traits::Wire;
use std::alloc::{AllocError, Global};
use std::marker::Model;

/// A wire in memory. Its reads never fail, and its writes only where the room that it was made with is used up or it is
/// closed.
#[derive(Drop)]
pub struct UnfailingWire {
    tape: Tape,
    shelf: Shelf,
    calls: Calls,
    cut: bool,
    closed: bool,
    ended: bool,
}

impl Model for UnfailingWire {
    ghost use Rattle.outside_traits.specs.Wires.{UnfailingLine};

    ghost Value = { UnfailingLine };

    ghost view = { λ w. record { tape = w.tape; shelf = w.shelf; calls = w.calls; cut = w.cut; closed = w.closed; ended = w.ended } };
}

impl UnfailingWire {
    /// A wire on which these bytes come in, and `room` bytes go out in all.
    pub fn new(alloc: Global, bytes: &[u8], room: usize) -> Result<UnfailingWire, AllocError>
        ensures given { IfOk result (λ wire. wire.tape.given ≡ []) }
        ensures left { IfOk result (λ wire. wire.tape.left ≡ bytes.now) }
        ensures taken { IfOk result (λ wire. wire.shelf.taken ≡ []) }
        ensures room { IfOk result (λ wire. wire.shelf.room ≡ room) }
        ensures calls { IfOk result (λ wire. wire.calls ≡ Some []) }
        ensures cut { IfOk result (λ wire. wire.cut ≡ false) }
        ensures closed { IfOk result (λ wire. wire.closed ≡ false) }
        ensures ended { IfOk result (λ wire. wire.ended ≡ false) }
    {
        let tape = Tape::new(alloc, bytes)?;
        let shelf = Shelf::new(alloc, room)?;
        Ok(UnfailingWire {
            tape,
            shelf,
            calls: Calls::new(alloc),
            cut: false,
            closed: false,
            ended: false,
        })
    }

    /// What was read.
    pub fn given(&self) -> &[u8]
        ensures { result.now ≡ self.now.tape.given }
    {
        self.tape.given()
    }

    /// What was written.
    pub fn taken(&self) -> &[u8]
        ensures { result.now ≡ self.now.shelf.taken }
    {
        self.shelf.bytes()
    }

    /// The reads and writes in order: all, where they are told.
    pub fn calls(&self) -> &[WireCall]
        ensures { IfSome self.now.calls (λ calls. result.now ≡ calls) }
    {
        self.calls.noted()
    }

    /// Whether a write has failed before the wire was closed.
    pub fn is_cut(&self) -> bool
        ensures { result ≡ self.now.cut }
    {
        self.cut
    }

    /// Notes a write that failed.
    fn fail(&mut self) -> Result<usize, Failed>
        ensures failed { IsErr result }
        ensures cut { self.new.cut ≡ (self.old.cut || not self.old.closed) }
        ensures tape { self.new.tape ≡ self.old.tape }
        ensures shelf { self.new.shelf ≡ self.old.shelf }
        ensures calls { Lists self.old.calls self.new.calls (Wrote 0 ∷ []) }
        ensures closed { self.new.closed ≡ self.old.closed }
        ensures ended { self.new.ended ≡ self.old.ended }
    {
        self.calls.note(WireCall::Wrote(0));
        self.cut |= !self.closed;
        Err(Failed)
    }
}

impl Wire for UnfailingWire {
    ghost told = { λ w. record {
      read = Some w.tape.given;
      unread = Some (readable w.closed w.tape);
      written = Some w.shelf.taken;
      calls = w.calls;
      read_failed = false;
      write_failed = w.cut;
      ended = w.ended;
      closed = w.closed;
      door = None;
    } };

    fn read(&mut self, into: &mut [u8]) -> Result<usize, Failed>
        ensures count { result ≡ Ok (min (length (readable self.old.closed self.old.tape)) (length into.old)) }
        ensures shelf { self.new.shelf ≡ self.old.shelf }
        ensures bound { ReadsAtMost result into.new }
        ensures bytes { ReadConsumes (Some (readable self.old.closed self.old.tape))
            (Some (readable self.new.closed self.new.tape)) result into.new }
        ensures read { WriteAppends (Some self.old.tape.given) (Some self.new.tape.given) result into.new }
        ensures written { Some self.new.shelf.taken ≡ Some self.old.shelf.taken }
        ensures calls { Lists self.old.calls self.new.calls (Read (moved result) ∷ []) }
        ensures closed { self.new.closed ≡ self.old.closed }
        ensures ended { self.new.ended ≡ (self.old.ended || tells_end self.old.closed (length into.old) result) }
        ensures shut { IsTrue self.old.closed → result ≡ Ok 0 }
        ensures write_failed { self.new.cut ≡ self.old.cut }
    {
        if self.closed {
            self.calls.note(WireCall::Read(0));
            return Ok(0);
        }
        let count = self.tape.give(into.len(), into);
        self.calls.note(WireCall::Read(count));
        self.ended |= !into.is_empty() && count == 0;
        Ok(count)
    }

    fn write(&mut self, from: &[u8]) -> Result<usize, Failed>
        ensures full { IsErr result ↔ (IsTrue self.old.closed
            ⊎ ((room_left self.old.shelf ≡ 0) × (0 < length from.now))) }
        ensures count { IfOk result (λ count. count ≡ min (room_left self.old.shelf) (length from.now)) }
        ensures room { self.new.shelf.room ≡ self.old.shelf.room }
        ensures bound { WritesAtMost result from.now }
        ensures some { IfOk result (λ count. 0 < length from.now → 0 < count) }
        ensures bytes { WriteAppends (Some self.old.shelf.taken) (Some self.new.shelf.taken) result from.now }
        ensures read { Some self.new.tape.given ≡ Some self.old.tape.given }
        ensures unread { Some (readable self.new.closed self.new.tape)
            ≡ Some (readable self.old.closed self.old.tape) }
        ensures calls { Lists self.old.calls self.new.calls (Wrote (moved result) ∷ []) }
        ensures closed { self.new.closed ≡ self.old.closed }
        ensures ended { self.new.ended ≡ self.old.ended }
        ensures shut { IsTrue self.old.closed → IsErr result }
        ensures write_failed { MatchResult result (λ _. self.new.cut ≡ self.old.cut)
            (λ _. self.new.cut ≡ (self.old.cut || not self.old.closed)) }
    {
        if self.closed {
            return self.fail();
        }
        let count = self.shelf.keep(from.len(), from);
        if count == 0 && !from.is_empty() {
            return self.fail();
        }
        self.calls.note(WireCall::Wrote(count));
        Ok(count)
    }

    fn close(&mut self) {
        self.closed = true;
    }
}
