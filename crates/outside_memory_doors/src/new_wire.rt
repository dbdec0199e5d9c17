ghost use Rattle.std.specs.Prelude.{◌≡◌, Some};
ghost use Rattle.outside_doors.specs.Attempts.{ComesAt, IsFresh};
ghost use Rattle.outside_doors.specs.Returns.{placed, told_at};

use outside_doors::CountedWire;
use outside_polling::PollWire;
use std::marker::Model;

/// A wire that was not used yet.
#[derive(Drop)]
pub(crate) struct NewWire<W: PollWire + Drop> {
    wire: W,
}

impl<W: PollWire + Drop> Model for NewWire<W> {
    ghost use Rattle.std.specs.Prelude.{◌≡◌};
    ghost use Rattle.outside_doors.specs.Attempts.{IsFresh};

    ghost Value = { W };

    ghost view = { λ n. n.wire };

    ghost invariant = { λ n. IsFresh (W.told n.wire).wire
        × ((W.told n.wire).waits ≡ 0)
        × ((W.told n.wire).in_a_row ≡ 0)
        × ((W.told n.wire).longest ≡ 0) };
}

impl<W: PollWire + Drop> NewWire<W> {
    pub(crate) fn new(wire: W) -> NewWire<W>
        requires fresh { IsFresh (W.told wire).wire }
        requires unwaited { (W.told wire).waits ≡ 0 }
        requires no_row { (W.told wire).in_a_row ≡ 0 }
        requires no_longest { (W.told wire).longest ≡ 0 }
        ensures { result ≡ wire }
    {
        NewWire { wire }
    }

    /// The wire, as it comes at the door behind so many others.
    pub(crate) fn into_counted(self, door: u64) -> CountedWire<W>
        ensures wire { result ≡ placed door self }
        ensures comes { ComesAt door (told_at (Some result.door) (W.told result.wire)) }
    {
        CountedWire::new(self.wire, door)
    }
}
