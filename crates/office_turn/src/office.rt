ghost use Rattle.std.specs.Prelude.{◌≡◌, true};
ghost use Rattle.office_sharing.specs.Named.{IsProgramOf, IsProgramOf-prop};

use crate::pass::Pass;
use atomic_table::Table;
use behaviour_tree::Program;
use office_plain::Office;
use office_sharing::{Copied, Look, Make, Merge, Naming, OneHistory, View};
use std::alloc::Global;
use std::marker::PhantomData;
use std::snapshot::Snapshot;

/// Where the office lies, with the turn and the count.
pub(crate) type OfficeTable = Table<Office, View, Snapshot<Program>, OneHistory, Global>;

/// The office of a run, which its threads share.
#[derive(Drop)]
pub struct SharedOffice<N: Naming> {
    pub(crate) table: OfficeTable,
    pub(crate) of: PhantomData<N>,
    pub ghost table_is: { table.shared.table_id ≡ N.table },
    pub ghost program_is: { IsProgramOf N.program table.shared.key.value } by { IsProgramOf-prop N.program table.shared.key.value },
    pub ghost words: { table.shared.table_id.words ≡ 2 },
    pub ghost slots: { table.shared.table_id.slots ≡ 1 },
}

impl<N: Naming> SharedOffice<N> {
    ghost use Rattle.behaviour_tree.specs.PartsView.{parts_of};
    ghost use Rattle.office_plain.specs.View.{entries_of};
    ghost use Rattle.office_sharing.specs.Named.{parts_by};
    ghost use Rattle.office_sharing.specs.Plays.{Ended, HasAll};
    ghost use Rattle.office_sharing.specs.Views.{copied, merged, newcomer, one_more};
    ghost use Rattle.office_turn.specs.Calls.{TookIn};

    /// A pass with the next number.
    pub fn make(&self, maker: &mut Pass<N>, number: u32) -> Pass<N>
        requires makes { maker.old.makes ≡ true }
        requires number { maker.old.given ≡ number }
        ensures maker { maker.new ≡ one_more maker.old }
        ensures made { result ≡ newcomer number }
    {
        let seat = self.table.shared.split_seat::<Make>(&mut maker.seat);
        Pass {
            number,
            seen: 0,
            seat,
            of: PhantomData,
        }
    }

    /// A copy of what a pass has seen, which makes no call.
    pub fn split(&self, pass: &mut Pass<N>) -> Pass<N>
        ensures same { pass.new ≡ pass.old }
        ensures copy { result ≡ copied pass.old }
    {
        let number = pass.number;
        let seen = pass.seen;
        let seat = self.table.shared.split_seat::<Copied>(&mut pass.seat);
        Pass {
            number,
            seen,
            seat,
            of: PhantomData,
        }
    }

    /// Takes in what another pass has seen, and its calls.
    pub fn join(&self, pass: &mut Pass<N>, other: Pass<N>)
        ensures { TookIn (parts_by N.program) pass.old other pass.new }
    {
        let Pass {
            number: _,
            seen: _,
            seat,
            of: _,
        } = other;
        self.table.shared.join_seat::<Merge>(&mut pass.seat, seat);
        pass.seen = self.table.shared.load::<Look<N>>(&mut pass.seat, 1);
    }

    /// The office, once every other pass was joined.
    pub fn into_office(self, pass: Pass<N>) -> Office
        requires { HasAll pass }
        ensures program { parts_of result.program ≡ (parts_by N.program) }
        ensures history { Ended (parts_by N.program) pass (entries_of result) }
    {
        let SharedOffice { table, of: _ } = self;
        let Pass {
            number: _,
            seen: _,
            seat,
            of: _,
        } = pass;
        let mut closed = table.close_with(seat);
        let office = closed.take(0);
        closed.free();
        office
    }
}
