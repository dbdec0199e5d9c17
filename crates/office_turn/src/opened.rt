ghost use Rattle.std.specs.Prelude.{◌≡◌, [], IfOk};
ghost use Rattle.office_plain.specs.View.{entries_of};
ghost use Rattle.office_sharing.specs.Named.{IsProgramOf};
ghost use Rattle.office_sharing.specs.Views.{founder};

use crate::office::{OfficeTable, SharedOffice};
use crate::pass::{Chair, Pass};
use atomic_table::Table;
use office_plain::Office;
use office_sharing::Naming;
use std::alloc::{AllocError, Global};
use std::marker::PhantomData;
use std::snapshot::Snapshot;

/// An office that is shared, under no name yet.
#[derive(Drop)]
pub struct Opened {
    table: OfficeTable,
    maker: Chair,
    ghost same: { maker.table_id ≡ table.shared.table_id },
    ghost words: { table.shared.table_id.words ≡ 2 },
    ghost slots: { table.shared.table_id.slots ≡ 1 },
    ghost begins: { maker.me ≡ (founder, []) },
}

impl Opened {
    /// Shares an office in which nothing happened yet.
    pub fn new(alloc: Global, office: Office) -> Result<Opened, AllocError>
        requires { entries_of office ≡ [] }
        ensures { IfOk result (λ o. o.table.shared.key.value ≡ office.program) }
    {
        let program = Snapshot::of(office.program());
        let Ok(mut slots) = Vec::with_capacity(alloc, 1) else {
            drop(office);
            return Err(AllocError);
        };
        slots.push_reserved(office);
        match Table::new(alloc, &[0, 0], slots, &program) {
            Ok((table, maker)) => Ok(Opened { table, maker }),
            Err(refused) => {
                drop(refused);
                Err(AllocError)
            }
        }
    }

    /// The office under the name of its run, and the pass that makes the others.
    pub fn named<N: Naming>(self) -> (SharedOffice<N>, Pass<N>)
        requires table { self.table.shared.table_id ≡ N.table }
        requires program { IsProgramOf N.program self.table.shared.key.value }
        ensures { result.1 ≡ founder }
    {
        let Opened { table, maker } = self;
        (
            SharedOffice {
                table,
                of: PhantomData,
            },
            Pass {
                number: 0,
                seen: 0,
                seat: maker,
                of: PhantomData,
            },
        )
    }
}
