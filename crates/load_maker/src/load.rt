ghost use Rattle.std.specs.Prelude.{◌≡◌, ◌<◌, ◌≤◌, length, ℕ, IfOk};
ghost use Rattle.behaviour_tree.specs.PartsView.{parts_of};
ghost use Rattle.load_maker.specs.Lines as made;
ghost use Rattle.load_maker.specs.Loaded.{IsLoaded};

use crate::sink::Forgetting;
use behaviour_tree::Program;
use outside_links::NoLink;
use outside_traits::UnfailingSource;
use run_lines::run_lines;
use run_theorem::Ended;
use session_turn::Seating;
use std::alloc::{AllocError, Global};

/// The most events of a session.
const BUDGET: u32 = 10_000;

/// Runs a program, whose text this is, over the lines of a load, in memory: what is written is kept in the record
/// alone, and calls to services elsewhere fail.
pub fn run_load<S: Seating>(
    alloc: Global,
    program: Program,
    text: &[u8],
    lines: &[u8],
) -> Result<Ended, AllocError>
    requires some { 0 < length (parts_of program).services }
    ensures { (count : ℕ) → count ≤ 600 → lines.now ≡ made.with_ends (made.lines count)
        → IfOk result (IsLoaded (parts_of program) text.now count) }
{
    let mut input = UnfailingSource::new(alloc, lines)?;
    let mut output = Forgetting;
    let mut notes = Forgetting;
    let mut link = NoLink::new();
    run_lines::<S, UnfailingSource, Forgetting, Forgetting, NoLink>(
        alloc,
        program,
        text,
        &mut input,
        &mut output,
        &mut notes,
        &mut link,
        BUDGET,
        &[],
    )
}
