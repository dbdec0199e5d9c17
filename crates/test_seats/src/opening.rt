//! The office before its session is adopted.

ghost use Rattle.std.specs.Prelude.{◌≡◌, [], Some, IfOk, OnOk};
ghost use Rattle.behaviour_tree.specs.PartsView.{parts_of};
ghost use Rattle.office_core.specs.Limits.{run_of};
ghost use Rattle.office_plain.specs.View.{entries_of};
ghost use Rattle.test_seats.specs.Opening.{IsOpened, first_entries};

use behaviour_tree::Program;
use office_core::{PostReply, Posted};
use office_plain::Office;
use reqresp_book::Origin;
use std::alloc::{AllocError, Global};

/// The actor that calls from outside.
pub const WORKER: u32 = 4_096;

/// The office of a program, once a message came in, if there is one.
pub(crate) fn opened_after(
    alloc: Global,
    program: &Program,
    first: Option<Posted>,
) -> Result<Office, AllocError>
    ensures opened { IfOk result (IsOpened program.now) }
    ensures entries { IfOk result (λ o. entries_of o ≡ first_entries (run_of (parts_of program.now)) first) }
{
    let mut office = opened(alloc, program)?;
    match first {
        None => Ok(office),
        Some(posted) => {
            post_first(program, &mut office, posted)?;
            Ok(office)
        }
    }
}

/// The office of a program, in which nothing happened yet.
fn opened(alloc: Global, program: &Program) -> Result<Office, AllocError>
    ensures opened { IfOk result (IsOpened program.now) }
    ensures entries { IfOk result (λ o. entries_of o ≡ []) }
{
    let copy = program.again()?;
    Office::new(alloc, copy)
}

/// Posts the first message.
fn post_first(
    program: &Program,
    office: &mut Office,
    posted: Posted,
) -> Result<PostReply, AllocError>
    requires opened { IsOpened program.now office.old }
    requires nothing_yet { entries_of office.old ≡ [] }
    ensures opened { OnOk result (IsOpened program.now office.new) }
    ensures entries { OnOk result (entries_of office.new
        ≡ first_entries (run_of (parts_of program.now)) (Some posted)) }
{
    let origin = Origin::Port {
        posting: 0,
        index: 0,
    };
    office.post(WORKER, origin, posted)
}
