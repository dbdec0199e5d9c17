ghost use Rattle.std.specs.Prelude.{◌≡◌, ◌↔◌, true, false, if◌then◌else◌, IsTrue, IfOk, Ok, Contains, length};
ghost use Rattle.std.specs.Io.{ReadsAtMost, WritesAtMost};
ghost use Rattle.outside_polling.specs.Polls as spec;
ghost use Rattle.outside_polling.specs.Polls.{done, once_more, row_after, longest_after, Polls, ReadsWire, WritesWire};
ghost use Rattle.outside_polling.specs.Early.{hasty, IsCalled};
ghost use Rattle.outside_polling.specs.declared.traits.Ready.TheVariants.{NotYet};

use crate::traits::{PollWire, Ready};
use outside_traits::{Failed, Wire};
use std::alloc::{AllocError, Global};
use std::marker::Model;

/// A wire that does not wait, over one that does, for tests: while it is open its calls of some numbers come too early,
/// and each other call is one of the wire in it.
#[derive(Drop)]
pub struct EarlyWire<W: Wire + Drop> {
    wire: W,
    early: Vec<u64>,
    calls: u64,
    waits: u64,
    in_a_row: u64,
    longest: u64,
    closed: bool,
}

impl<W: Wire + Drop> Model for EarlyWire<W> {
    ghost use Rattle.std.specs.Prelude.{◌≡◌};
    ghost use Rattle.outside_polling.specs.Early.{Hasty};

    ghost Value = { Hasty W };

    ghost view = { λ w. record {
      wire = w.wire;
      early = w.early.items;
      calls = w.calls;
      waits = w.waits;
      in_a_row = w.in_a_row;
      longest = w.longest;
    } };

    ghost invariant = { λ w. (W.told w.wire).closed ≡ w.closed };
}

impl<W: Wire + Drop> EarlyWire<W> {
    /// Over an open wire. The calls of these numbers, from 0, come too early: reads and writes are counted together.
    pub fn new(alloc: Global, wire: W, early: &[u64]) -> Result<EarlyWire<W>, AllocError>
        requires { (W.told wire).closed ≡ false }
        ensures { IfOk result (λ made. made ≡ hasty wire early.now) }
    {
        let early = Vec::from_slice(alloc, early)?;
        Ok(EarlyWire {
            wire,
            early,
            calls: 0,
            waits: 0,
            in_a_row: 0,
            longest: 0,
            closed: false,
        })
    }

    /// The wire in it.
    pub fn wire(&self) -> &W
        ensures { result.now ≡ self.now.wire }
    {
        &self.wire
    }

    /// How many of its calls have come too early.
    pub fn waits(&self) -> u64
        ensures { result ≡ self.now.waits }
    {
        self.waits
    }

    /// Whether the call at hand comes too early, which is counted then. Of a closed wire none does.
    fn comes_early(&mut self) -> bool
        ensures wire { self.new.wire ≡ self.old.wire }
        ensures early { IsTrue result ↔ (((W.told self.old.wire).closed ≡ false)
            × Contains self.old.early self.old.calls) }
        ensures waits { result ≡ true → self.new.waits ≡ once_more self.old.waits }
        ensures stays { result ≡ false → self.new.waits ≡ self.old.waits }
        ensures row { self.new.in_a_row ≡ (if result then once_more self.old.in_a_row else 0) }
        ensures longest { self.new.longest ≡ self.old.longest }
        ensures called { (W.told self.old.wire).closed ≡ false → IsCalled self.old self.new }
    {
        if self.closed {
            self.in_a_row = 0;
            return false;
        }
        let call = self.calls;
        self.calls = call.saturating_add(1);
        let is_early = self.early.contains(&call);
        if is_early {
            self.waits = self.waits.saturating_add(1);
            self.in_a_row = self.in_a_row.saturating_add(1);
        } else {
            self.in_a_row = 0;
        }
        is_early
    }
}

impl<W: Wire + Drop> PollWire for EarlyWire<W> {
    ghost told = { λ w. record {
      wire = W.told w.wire;
      waits = w.waits;
      in_a_row = w.in_a_row;
      longest = w.longest;
    } };

    fn try_read(&mut self, into: &mut [u8]) -> Result<Ready, Failed>
        ensures early { result ≡ Ok NotYet ↔
            (((W.told self.old.wire).closed ≡ false) × Contains self.old.early self.old.calls) }
        ensures called { (W.told self.old.wire).closed ≡ false → IsCalled self.old self.new }
        ensures bound { ReadsAtMost (done result) into.new }
        ensures reads { Polls result
            (record {
              wire = W.told self.old.wire;
              waits = self.old.waits;
              in_a_row = self.old.in_a_row;
              longest = self.old.longest;
            })
            (record {
              wire = W.told self.new.wire;
              waits = self.new.waits;
              in_a_row = self.new.in_a_row;
              longest = self.new.longest;
            })
            (λ answer. ReadsWire (length into.old) into.new answer) }
        ensures row { self.new.in_a_row ≡ row_after result self.old.in_a_row }
        ensures longest { self.new.longest ≡ self.old.longest }
    {
        if self.comes_early() {
            return Ok(Ready::NotYet);
        }
        let count = self.wire.read(into)?;
        Ok(Ready::Done(count))
    }

    fn try_write(&mut self, from: &[u8]) -> Result<Ready, Failed>
        ensures early { result ≡ Ok NotYet ↔
            (((W.told self.old.wire).closed ≡ false) × Contains self.old.early self.old.calls) }
        ensures called { (W.told self.old.wire).closed ≡ false → IsCalled self.old self.new }
        ensures bound { WritesAtMost (done result) from.now }
        ensures writes { Polls result
            (record {
              wire = W.told self.old.wire;
              waits = self.old.waits;
              in_a_row = self.old.in_a_row;
              longest = self.old.longest;
            })
            (record {
              wire = W.told self.new.wire;
              waits = self.new.waits;
              in_a_row = self.new.in_a_row;
              longest = self.new.longest;
            })
            (λ answer. WritesWire from.now answer) }
        ensures row { self.new.in_a_row ≡ row_after result self.old.in_a_row }
        ensures longest { self.new.longest ≡ longest_after result self.old.longest self.old.in_a_row }
    {
        if self.comes_early() {
            self.longest = greater(self.longest, self.in_a_row);
            return Ok(Ready::NotYet);
        }
        let count = self.wire.write(from)?;
        Ok(Ready::Done(count))
    }

    fn close(&mut self) {
        self.wire.close();
        self.closed = true;
    }
}

/// The greater of two counts.
fn greater(a: u64, b: u64) -> u64
    ensures { result ≡ spec.greater a b }
{
    if a < b {
        return b;
    }
    a
}
