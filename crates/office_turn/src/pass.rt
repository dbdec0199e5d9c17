ghost use Rattle.std.specs.Prelude.{◌≡◌, length};

use atomic_table::Seat;
use office_plain::Office;
use office_sharing::{Naming, View};
use std::marker::{Model, PhantomData};

pub(crate) type Chair = Seat<Office, View>;

/// What one caller has seen of the office of a run, with the calls that it made: clauses see its view.
#[derive(Drop)]
pub struct Pass<N: Naming> {
    pub(crate) number: u32,
    pub(crate) seen: u64,
    pub(crate) seat: Chair,
    pub(crate) of: PhantomData<N>,
}

impl<N: Naming> Model for Pass<N> {
    ghost use Rattle.std.specs.Prelude.{◌≡◌, [], false, length};
    ghost use Rattle.office_sharing.specs.contracts.view.View as view_row;
    ghost use Rattle.office_sharing.specs.declared.view.View.{View};

    ghost Value = { View };

    ghost coded = { view_row.the_row.coded };

    ghost view = { λ p. p.seat.me.0 };

    ghost invariant = { λ p. (p.seat.table_id ≡ N.table) × (p.seat.me.1 ≡ []) × (p.seat.me.0.turn ≡ false)
        × (p.seat.me.0.told ≡ []) × (p.number ≡ p.seat.me.0.number) × (p.seen ≡ length p.seat.me.0.seen) };
}

impl<N: Naming> Pass<N> {
    /// The number by which it calls.
    pub fn number(&self) -> u32
        ensures { result ≡ self.now.number }
    {
        self.number
    }

    /// How many entries it has seen.
    pub fn seen(&self) -> u64
        ensures { result ≡ length self.now.seen }
    {
        self.seen
    }
}
