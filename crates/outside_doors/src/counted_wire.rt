ghost use Rattle.std.specs.Prelude.{◌≡◌, Some};
ghost use Rattle.outside_doors.specs.Attempts.{ComesAt, IsFresh};
ghost use Rattle.outside_doors.specs.Returns.{placed, told_at};

use outside_polling::{PollWire, Ready};
use outside_traits::Failed;
use std::marker::Model;

/// A wire that tells at which door it came, and keeps what is counted of it once it is taken back: whether a read
/// failed, whether a write did, whether it ended, and how often it could move nothing yet.
#[derive(Drop)]
pub struct CountedWire<W: PollWire> {
    wire: W,
    door: u64,
    waits: u64,
    lost: bool,
    cut: bool,
    ended: bool,
    closed: bool,
}

impl<W: PollWire> Model for CountedWire<W> {
    ghost use Rattle.std.specs.Prelude.{◌≡◌};
    ghost use Rattle.outside_doors.specs.Returns.{Placed};

    ghost Value = { Placed W };

    ghost view = { λ w. record { wire = w.wire; door = w.door } };

    ghost invariant = { λ w. ((W.told w.wire).waits ≡ w.waits)
        × ((W.told w.wire).wire.read_failed ≡ w.lost)
        × ((W.told w.wire).wire.write_failed ≡ w.cut)
        × ((W.told w.wire).wire.ended ≡ w.ended)
        × ((W.told w.wire).wire.closed ≡ w.closed) };
}

impl<W: PollWire> CountedWire<W> {
    /// A wire that was not called yet, as it comes at the door behind so many others.
    pub fn new(wire: W, door: u64) -> CountedWire<W>
        requires fresh { IsFresh (W.told wire).wire }
        requires unwaited { (W.told wire).waits ≡ 0 }
        requires no_row { (W.told wire).in_a_row ≡ 0 }
        requires no_longest { (W.told wire).longest ≡ 0 }
        ensures wire { result ≡ placed door wire }
        ensures comes { ComesAt door (told_at (Some result.door) (W.told result.wire)) }
    {
        CountedWire {
            wire,
            door,
            waits: 0,
            lost: false,
            cut: false,
            ended: false,
            closed: false,
        }
    }

    /// The wire itself.
    pub fn wire(&self) -> &W
        ensures { result.now ≡ self.now.wire }
    {
        &self.wire
    }

    /// At which door it came: how many doors had been opened before that.
    pub fn door(&self) -> u64
        ensures { result ≡ self.now.door }
    {
        self.door
    }

    /// How often it has answered that it can move nothing yet.
    pub fn waits(&self) -> u64
        ensures { result ≡ (W.told self.now.wire).waits }
    {
        self.waits
    }

    /// Whether a read has failed.
    pub fn is_lost(&self) -> bool
        ensures { result ≡ (W.told self.now.wire).wire.read_failed }
    {
        self.lost
    }

    /// Whether a write has failed before the wire was closed.
    pub fn is_cut(&self) -> bool
        ensures { result ≡ (W.told self.now.wire).wire.write_failed }
    {
        self.cut
    }

    /// Whether a read has told the end of what comes in.
    pub fn has_ended(&self) -> bool
        ensures { result ≡ (W.told self.now.wire).wire.ended }
    {
        self.ended
    }
}

impl<W: PollWire> PollWire for CountedWire<W> {
    ghost told = { λ w. told_at (Some w.door) (W.told w.wire) };

    fn try_read(&mut self, into: &mut [u8]) -> Result<Ready, Failed> {
        let is_asked = !self.closed && !into.is_empty();
        let answer = self.wire.try_read(into);
        match answer {
            Ok(Ready::Done(count)) => self.ended |= is_asked && count == 0,
            Ok(Ready::NotYet) => self.waits = self.waits.saturating_add(1),
            Err(Failed) => self.lost = true,
        }
        answer
    }

    fn try_write(&mut self, from: &[u8]) -> Result<Ready, Failed> {
        let answer = self.wire.try_write(from);
        match answer {
            Ok(Ready::Done(_)) => {}
            Ok(Ready::NotYet) => self.waits = self.waits.saturating_add(1),
            Err(Failed) => self.cut |= !self.closed,
        }
        answer
    }

    fn close(&mut self) {
        self.wire.close();
        self.closed = true;
    }
}
