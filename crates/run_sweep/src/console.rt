//! Output to the console.
ghost use Rattle.std.specs.Prelude.{◌≡◌, [], ◌∷◌, true, List, IfOk, OnOk, MatchResult};
ghost use Rattle.outside_links.specs.Trips.{LinkTold};
ghost use Rattle.std.specs.declared.option.Option.{Option};
ghost use Rattle.jolie_trees.specs.Trees.{root_of, void_tree};
ghost use Rattle.behaviour_tree.specs.declared.words.Outcome.TheVariants as outcome;
ghost use Rattle.office_core.specs.declared.outgoing.OutKind.TheVariants as kind;
ghost use Rattle.office_core.specs.Limits.{first_worker};
ghost use Rattle.office_core.specs.Legal.{is_fetched};
ghost use Rattle.run_theorem.specs.Calls.{Notes};
ghost use Rattle.jsonrpc_calls.specs.Console as lines;
ghost use Rattle.run_cells.specs.RunStates.{AtWork, Stays, past_in};
ghost use Rattle.run_cells.specs.View.{run_state, state};
ghost use Rattle.run_trip_laws.specs.Going.{AreSettled, answer_of};
ghost use Rattle.outside_links.specs.Trips.{Made};
ghost use Rattle.run_sweep.specs.Swept.{Cleared, NotesBy, NotesMore, PassedOn, CompletedCallsBy};

use behaviour_tree::Outcome;
use jolie_trees::Tree;
use jsonrpc_calls::console_line;
use office_core::{OutKind, Outgoing};
use run_cells::Cells;
use run_theorem::Front;
use session_turn::Seating;
use std::alloc::{AllocError, Global};

/// Notes all output to the console that waits; it says whether there was any.
pub(crate) fn note_all<S: Seating, F: Front>(
    alloc: Global,
    cells: &mut Cells<'_, S>,
    front: &mut F,
) -> Result<bool, AllocError>
    requires work { AtWork (run_state S.Session cells.old) }
    requires settled { AreSettled (state S.Session cells.old).setting (state S.Session cells.old).history }
    ensures program { cells.new.program ≡ cells.old.program }
    ensures work { OnOk result (AtWork (run_state S.Session cells.new)) }
    ensures cleared { IfOk result
        (λ moved. Cleared (state S.Session cells.old).setting kind.Console (state S.Session cells.old)
        (state S.Session cells.new) moved) }
    ensures completed { OnOk result ((now : LinkTold)
        → CompletedCallsBy (state S.Session cells.old).setting (state S.Session cells.old).history
        (state S.Session cells.new).history now now) }
    ensures noted { MatchResult result
        (λ _. PassedOn F.exchanged front.old front.new
        (NotesBy (state S.Session cells.old).setting (state S.Session cells.old).history
        (state S.Session cells.new).history)) (λ _. PassedOn F.exchanged front.old front.new NotesMore) }
{
    let mut moved = false;
    while let Some(out) = cells.fetch(OutKind::Console)? {
        note(alloc, cells, front, &out)?;
        moved = true;
    }
    Ok(moved)
}

/// Notes the line of a call to the console, whose outcome is void.
fn note<S: Seating, F: Front>(
    alloc: Global,
    cells: &mut Cells<'_, S>,
    front: &mut F,
    out: &Outgoing,
) -> Result<(), AllocError>
    requires work { AtWork (run_state S.Session cells.old) }
    requires fetched { is_fetched (past_in (state S.Session cells.old)) first_worker out.now.session out.now.call
        ≡ true }
    ensures program { cells.new.program ≡ cells.old.program }
    ensures work { OnOk result (AtWork (run_state S.Session cells.new)) }
    ensures stays { OnOk result (Stays (state S.Session cells.old) (state S.Session cells.new)
        (answer_of first_worker out.now (outcome.Value void_tree) ∷ [])) }
    ensures noted { MatchResult result
        (λ _. PassedOn F.exchanged front.old front.new (Notes (lines.console_line (root_of out.now.value))))
        (λ _. PassedOn F.exchanged front.old front.new NotesMore) }
{
    let line = console_line(alloc, out.value.root())?;
    front.note(line.as_str().as_bytes());
    let outcome = Outcome::Value(Tree::void(alloc));
    cells.answered(out.session, out.call, outcome)
}
