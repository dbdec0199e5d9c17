//! A run from its beginning to its end.
ghost use Rattle.std.specs.Prelude.{◌<◌, IfOk, length};
ghost use Rattle.behaviour_tree.specs.PartsView.{parts_of};
ghost use Rattle.office_core.specs.Limits.{run_of};
ghost use Rattle.run_theorem.specs.Calls.{After};
ghost use Rattle.run_theorem.specs.Exchange.{Exchange, IsNew};
ghost use Rattle.run_theorem.specs.Picks.{TookPicks};
ghost use Rattle.run_alone.specs.Ran.{Ran, Travelled};

use crate::alone::Alone;
use behaviour_tree::Program;
use outside_links::Link;
use run_cells::Cells;
use run_posts::Pendings;
use run_record::Record;
use run_theorem::Front;
use session_turn::Seating;
use std::alloc::{AllocError, Global};

/// A run that came to its end: its record, and whether some session used its whole budget and could act all the same.
#[derive(Drop)]
pub struct Finished {
    pub report: Record,
    pub spent: bool,
}

/// Runs a program, whose text this is, until a front brings no more postings: each is posted, all sessions have their
/// turns until none can go on, and what is finished is answered. At the end what is still open is stopped and answered
/// so. A session has at most as many events as the budget, and each turn takes the next pick, or 0 after the last.
pub fn run_over<S: Seating, F: Front, L: Link>(
    alloc: Global,
    program: Program,
    text: &[u8],
    front: &mut F,
    link: &mut L,
    budget: u32,
    picks: &[u32],
) -> Result<Finished, AllocError>
    requires some { 0 < length (parts_of program).services }
    ensures ran { IfOk result
        (λ finished. (first : F) (before : Exchange) → F.exchanged (parts_of program) first front.old before
        → IsNew before → After (F.exchanged (parts_of program) first front.new)
        (λ d. Ran (record { setting = run_of (parts_of program); budget = budget }) text.now before d finished)) }
    ensures picks { IfOk result
        (λ finished. TookPicks (record { setting = run_of (parts_of program); budget = budget }) picks.now
        finished.report) }
    ensures trips { IfOk result
        (λ finished. Travelled (run_of (parts_of program)) finished.report.history.entries.items (L.told link.old)
        (L.told link.new)) }
{
    let cells: Cells<'_, S> = Cells::new(alloc, program, budget, picks)?;
    let pendings = Pendings::new(alloc);
    let mut run = Alone {
        alloc,
        cells,
        pendings,
    };
    let unfailed = run.bring_in(front, link)?;
    let finished = run.finish(front, link, text, unfailed)?;
    Ok(finished)
}
