//! Calls to services elsewhere.
ghost use Rattle.std.specs.Prelude.{◌≡◌, ℕ, List, ◌∷◌, [], IfOk, OnOk};
ghost use Rattle.std.specs.declared.option.Option.{Option};
ghost use Rattle.behaviour_tree.specs.PartsView.{parts_of};
ghost use Rattle.office_core.specs.declared.outgoing.OutKind.TheVariants as kind;
ghost use Rattle.outside_traits.specs.Told.{Lists};
ghost use Rattle.outside_links.specs.Trips.{Made};
ghost use Rattle.run_cells.specs.RunStates.{AtWork};
ghost use Rattle.run_cells.specs.View.{run_state, state};
ghost use Rattle.run_trip_laws.specs.Going.{AreSettled, IsHeard, NotedSoFar};
ghost use Rattle.run_sweep.specs.Swept.{Cleared, CompletedCallsBy};
ghost use Rattle.run_theorem.specs.Trips.{HasCounted};

use behaviour_tree::{Outcome, Program};
use jsonrpc_calls::{call_text, location_called, nothing_heard, outcome_heard};
use office_core::{OutKind, Outgoing};
use outside_links::Link;
use outside_traits::CallError;
use run_cells::Cells;
use session_turn::Seating;
use std::alloc::{AllocError, Global};

/// Makes the trips of all calls to services elsewhere that wait; it says whether there was any.
pub(crate) fn trip_all<S: Seating, L: Link>(
    alloc: Global,
    cells: &mut Cells<'_, S>,
    link: &mut L,
) -> Result<bool, AllocError>
    requires work { AtWork (run_state S.Session cells.old) }
    requires settled { AreSettled (state S.Session cells.old).setting (state S.Session cells.old).history }
    ensures program { cells.new.program ≡ cells.old.program }
    ensures work { OnOk result (AtWork (run_state S.Session cells.new)) }
    ensures cleared { IfOk result
        (λ moved. Cleared (state S.Session cells.old).setting kind.Remote (state S.Session cells.old)
        (state S.Session cells.new) moved) }
    ensures completed { OnOk result (CompletedCallsBy (state S.Session cells.old).setting
        (state S.Session cells.old).history (state S.Session cells.new).history (L.told link.old) (L.told link.new)) }
    ensures noted { OnOk result ((noted : List ℕ)
        → NotedSoFar (state S.Session cells.old).setting (state S.Session cells.old).history noted
        → NotedSoFar (state S.Session cells.old).setting (state S.Session cells.new).history noted) }
{
    let mut moved = false;
    while let Some(out) = cells.fetch(OutKind::Remote)? {
        let outcome = trip(alloc, cells.program(), link, &out)?;
        cells.answered(out.session, out.call, outcome)?;
        moved = true;
    }
    Ok(moved)
}

/// Makes the trip of a call, and gives what is heard of it.
fn trip<L: Link>(
    alloc: Global,
    program: &Program,
    link: &mut L,
    out: &Outgoing,
) -> Result<Outcome, AllocError>
    ensures { IfOk result
        (λ o. (m : Made) × (IsHeard (parts_of program.now) out.now m o)
        × (Lists (L.told link.old).trips (L.told link.new).trips (m ∷ []))
        × (HasCounted (L.told link.old).faults (L.told link.new).faults (m ∷ []))) }
{
    let text = call_text(alloc, out, program)?;
    let location = location_called(program, out);
    match link.trip(location, text.as_str().as_bytes()) {
        Ok(bytes) => outcome_heard(alloc, out, bytes.as_slice()),
        Err(CallError::Failed) => nothing_heard(alloc),
        Err(CallError::Memory(error)) => Err(error),
    }
}
