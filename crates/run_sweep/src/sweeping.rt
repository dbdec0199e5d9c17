//! All that can be done is done.
ghost use Rattle.std.specs.Prelude.{◌≡◌, ◌<◌, ◌||◌, [], true, false, IfOk, OnOk, MatchResult, if◌then◌else◌};
ghost use Rattle.run_record.specs.Quiet.{outstanding};
ghost use Rattle.run_cells.specs.RunStates.{AtWork, past_in};
ghost use Rattle.run_cells.specs.View.{run_state, state};
ghost use Rattle.run_cells.specs.Rounds.{IsQuietAt, left};
ghost use Rattle.run_trip_laws.specs.Going.{AreSettled};
ghost use Rattle.run_sweep.specs.Swept.{NotesBy, NotesMore, PassedOn, StaysQuiet, Swept, CompletedCallsBy, HasHalted, HasNotHalted};

use crate::console::note_all;
use crate::elsewhere::trip_all;
use outside_links::Link;
use run_cells::Cells;
use run_theorem::Front;
use session_turn::Seating;
use std::alloc::{AllocError, Global};

/// What a round of a sweep came to: something was done, nothing was left to do, or the front halted.
pub(crate) enum Round {
    Again,
    Idle,
    Halted,
}

/// Gives all sessions their turns, notes output to the console and makes the trips of calls to services elsewhere,
/// until nothing is left to do or the front halts; it says whether nothing is left to do.
pub fn sweep<S: Seating, F: Front, L: Link>(
    alloc: Global,
    cells: &mut Cells<'_, S>,
    front: &mut F,
    link: &mut L,
) -> Result<bool, AllocError>
    requires work { AtWork (run_state S.Session cells.old) }
    requires settled { AreSettled (state S.Session cells.old).setting (state S.Session cells.old).history }
    requires received { outstanding (past_in (state S.Session cells.old)) ≡ [] }
    ensures program { cells.new.program ≡ cells.old.program }
    ensures work { OnOk result (AtWork (run_state S.Session cells.new)) }
    ensures swept { OnOk result (Swept (state S.Session cells.old) (state S.Session cells.new)) }
    ensures completed { OnOk result (CompletedCallsBy (state S.Session cells.old).setting
        (state S.Session cells.old).history (state S.Session cells.new).history (L.told link.old) (L.told link.new)) }
    ensures noted { MatchResult result
        (λ _. PassedOn F.exchanged front.old front.new
        (NotesBy (state S.Session cells.old).setting (state S.Session cells.old).history
        (state S.Session cells.new).history)) (λ _. PassedOn F.exchanged front.old front.new NotesMore) }
    ensures quiet { IfOk result (λ unfailed. unfailed ≡ true → IsQuietAt (state S.Session cells.new)) }
    ensures heeded { IfOk result (λ unfailed. unfailed ≡ true → HasNotHalted F.exchanged front.new) }
    ensures halted { IfOk result (λ unfailed. unfailed ≡ false → HasHalted F.exchanged front.new) }
    ensures still { OnOk result (StaysQuiet (state S.Session cells.old) (state S.Session cells.new)) }
{
    loop {
        match go_round(alloc, cells, front, link)? {
            Round::Again => {}
            Round::Idle => return Ok(true),
            Round::Halted => return Ok(false),
        }
    }
}

/// One round of a sweep.
fn go_round<S: Seating, F: Front, L: Link>(
    alloc: Global,
    cells: &mut Cells<'_, S>,
    front: &mut F,
    link: &mut L,
) -> Result<Round, AllocError>
    requires work { AtWork (run_state S.Session cells.old) }
    requires settled { AreSettled (state S.Session cells.old).setting (state S.Session cells.old).history }
    requires received { outstanding (past_in (state S.Session cells.old)) ≡ [] }
    ensures program { cells.new.program ≡ cells.old.program }
    ensures work { OnOk result (AtWork (run_state S.Session cells.new)) }
    ensures swept { OnOk result (Swept (state S.Session cells.old) (state S.Session cells.new)) }
    ensures completed { OnOk result (CompletedCallsBy (state S.Session cells.old).setting
        (state S.Session cells.old).history (state S.Session cells.new).history (L.told link.old) (L.told link.new)) }
    ensures noted { MatchResult result
        (λ _. PassedOn F.exchanged front.old front.new
        (NotesBy (state S.Session cells.old).setting (state S.Session cells.old).history
        (state S.Session cells.new).history)) (λ _. PassedOn F.exchanged front.old front.new NotesMore) }
    ensures again { IfOk result
        (λ r. r ≡ Round.Again → (outstanding (past_in (state S.Session cells.new)) ≡ [])
        × (left (state S.Session cells.new) < left (state S.Session cells.old))) }
    ensures unfailed { IfOk result (λ r. r ≡ Round.Idle → IsQuietAt (state S.Session cells.new)) }
    ensures halted { IfOk result (λ r. r ≡ Round.Halted → HasHalted F.exchanged front.new) }
    ensures heeded { IfOk result (λ r. (r ≡ Round.Halted → ⊥) → HasNotHalted F.exchanged front.new) }
    ensures stopped { IfOk result (λ r. r ≡ Round.Halted → link.new ≡ link.old) }
    ensures still { IfOk result
        (λ r. IsQuietAt (state S.Session cells.old) → (r ≡ Round.Again → ⊥)
        × StaysQuiet (state S.Session cells.old) (state S.Session cells.new)) }
{
    let turned = cells.all_turns()?;
    let noted = note_all(alloc, cells, front)?;
    if front.halted() {
        return Ok(Round::Halted);
    }
    let travelled = trip_all(alloc, cells, link)?;
    Ok(came_to(turned, noted, travelled))
}

/// What a round came to, by whether sessions had events, and calls to the console or elsewhere went out.
fn came_to(turned: bool, noted: bool, travelled: bool) -> Round
    ensures { result ≡ (if turned || noted || travelled then Round.Again else Round.Idle) }
{
    if turned || noted || travelled {
        Round::Again
    } else {
        Round::Idle
    }
}
