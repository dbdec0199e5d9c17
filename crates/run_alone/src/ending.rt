//! The end of a run.
ghost use Rattle.std.specs.Prelude.{◌≡◌, ◌||◌, ℕ, List, true, false, not, [], IfOk, OnOk};
ghost use Rattle.behaviour_tree.specs.Data.{ProgramParts};
ghost use Rattle.behaviour_tree.specs.PartsView.{parts_of};
ghost use Rattle.office_core.specs.Legal.{IsLegal};
ghost use Rattle.run_theorem.specs.Calls.{After};
ghost use Rattle.run_theorem.specs.Exchange.{Exchange};
ghost use Rattle.run_cells.specs.RunStates.{AtWork, IsOurs, events_of};
ghost use Rattle.run_cells.specs.View.{run_state, state};
ghost use Rattle.run_posts.specs.CallStates.{waits};
ghost use Rattle.run_sweep.specs.Swept.{CompletedCallsBy};
ghost use Rattle.run_alone.specs.Between.{Between, Closed, GoesTo, IsLeft, LeftQuiet, Rested};
ghost use Rattle.run_alone.specs.Overs.{LeavesNone};
ghost use Rattle.run_alone.specs.Ran.{Ran};
ghost use Rattle.run_alone.specs.declared.worker.Finished.{Finished as Left};

use crate::alone::Alone;
use crate::worker::Finished;
use jolie_trees::Bytes;
use outside_links::Link;
use run_cells::Cells;
use run_record::Record;
use run_sweep::sweep;
use run_theorem::Front;
use session_turn::Seating;
use sqlite_items::Items;
use std::alloc::{AllocError, Global};

impl<S: Seating> Alone<'_, S> {
    /// Does what is left to do, unless the front halted, stops the run, and answers what is still open.
    pub fn finish<F: Front, L: Link>(
        mut self,
        front: &mut F,
        link: &mut L,
        text: &[u8],
        unfailed: bool,
    ) -> Result<Finished, AllocError>
        requires work { AtWork (run_state S.Session self.cells) }
        requires between { Between (state S.Session self.cells) (waits self.pendings) self.pendings.postings unfailed }
        ensures ran { IfOk result
            (λ finished. (first : F) (new before : Exchange)
            → F.exchanged (parts_of self.entry.cells.program) first front.old before
            → Closed (state S.Session self.entry.cells)
            (waits self.entry.pendings) self.entry.pendings.postings unfailed before
            → LeavesNone new before
            → After (F.exchanged (parts_of self.entry.cells.program) first front.new)
            (λ d. Ran (record {
              setting = (state S.Session self.entry.cells).setting;
              budget = (state S.Session self.entry.cells).budget;
            }) text.now
            new d finished)) }
        ensures goes { IfOk result (λ finished. GoesTo (state S.Session self.entry.cells) finished.report) }
        ensures completed { IfOk result
            (λ finished. CompletedCallsBy (state S.Session self.entry.cells).setting
            (state S.Session self.entry.cells).history finished.report.history.entries.items (L.told link.old)
            (L.told link.new)) }
    {
        match self.quit(front, link, unfailed) {
            Ok(spent) => {
                let report = record_of(self.alloc, text, self.cells)?;
                Ok(Finished { report, spent })
            }
            Err(error) => {
                drop(self);
                Err(error)
            }
        }
    }

    /// Does what is left to do, unless the front halted, stops the run, and answers what is still open. It says whether
    /// some session used its whole budget and could act all the same.
    fn quit<F: Front, L: Link>(
        &mut self,
        front: &mut F,
        link: &mut L,
        unfailed: bool,
    ) -> Result<bool, AllocError>
        requires work { AtWork (run_state S.Session self.old.cells) }
        requires between { Between (state S.Session self.old.cells) (waits self.old.pendings)
            self.old.pendings.postings unfailed }
        ensures ours { OnOk result (IsOurs (run_state S.Session self.new.cells)) }
        ensures ran { IfOk result
            (λ spent. (text : List ℕ) (left : Left)
            → IsLeft text spent (state S.Session self.new.cells) left
            → (first : F) (new before : Exchange)
            → F.exchanged (parts_of self.old.cells.program) first front.old before
            → Closed (state S.Session self.old.cells)
            (waits self.old.pendings) self.old.pendings.postings unfailed before
            → LeavesNone new before
            → After (F.exchanged (parts_of self.old.cells.program) first front.new)
            (λ d. Ran (record {
              setting = (state S.Session self.old.cells).setting;
              budget = (state S.Session self.old.cells).budget;
            }) text new d
            left)) }
        ensures goes { IfOk result
            (λ spent. (text : List ℕ) (left : Left) → IsLeft text spent (state S.Session self.new.cells) left
            → GoesTo (state S.Session self.old.cells) left.report) }
        ensures completed { IfOk result
            (λ spent. (text : List ℕ) (left : Left) → IsLeft text spent (state S.Session self.new.cells) left
            → CompletedCallsBy (state S.Session self.old.cells).setting (state S.Session self.old.cells).history
            left.report.history.entries.items (L.told link.old) (L.told link.new)) }
    {
        self.rest(front, link, unfailed)?;
        self.cells.adopt_all()?;
        let spent = self.cells.is_spent()?;
        self.cells.stop();
        self.pendings.collect_all(&mut self.cells)?;
        self.pendings.tell_finished(self.cells.program(), front)?;
        Ok(spent)
    }

    /// Does what is left to do, unless the front halted.
    fn rest<F: Front, L: Link>(
        &mut self,
        front: &mut F,
        link: &mut L,
        unfailed: bool,
    ) -> Result<(), AllocError>
        requires work { AtWork (run_state S.Session self.old.cells) }
        requires between { Between (state S.Session self.old.cells) (waits self.old.pendings)
            self.old.pendings.postings unfailed }
        ensures program { self.new.cells.program ≡ self.old.cells.program }
        ensures pendings { self.new.pendings ≡ self.old.pendings }
        ensures work { OnOk result (AtWork (run_state S.Session self.new.cells)) }
        ensures rested { OnOk result (Rested unfailed (state S.Session self.old.cells)
            (state S.Session self.new.cells)) }
        ensures completed { OnOk result (CompletedCallsBy (state S.Session self.old.cells).setting
            (state S.Session self.old.cells).history (state S.Session self.new.cells).history (L.told link.old)
            (L.told link.new)) }
        ensures noted { OnOk result ((parts : ProgramParts) (first : F) (before : Exchange)
            → F.exchanged parts first front.old before
            → Closed (state S.Session self.old.cells) (waits self.old.pendings) self.old.pendings.postings unfailed
            before → After (F.exchanged parts first front.new)
            (LeftQuiet (state S.Session self.old.cells) (state S.Session self.new.cells) before)) }
    {
        let halted = front.halted();
        let stopped = is_stopped(unfailed, halted);
        if stopped {
            return Ok(());
        }
        sweep(self.alloc, &mut self.cells, front, link)?;
        Ok(())
    }
}

/// Whether nothing more is done: it was not unfailed, or the front halted.
fn is_stopped(unfailed: bool, halted: bool) -> bool
    ensures { result ≡ (not unfailed || halted) }
{
    !unfailed || halted
}

/// The record of a run, which has no traffic yet.
fn record_of<S: Seating>(
    alloc: Global,
    text: &[u8],
    cells: Cells<'_, S>,
) -> Result<Record, AllocError>
    requires ours { IsOurs (run_state S.Session cells) }
    ensures program { IfOk result (λ report. report.program ≡ text.now) }
    ensures history { IfOk result (λ report. report.history.entries.items ≡ (state S.Session cells.entry).history) }
    ensures sessions { IfOk result (λ report. report.sessions ≡ events_of (run_state S.Session cells.entry).stands) }
    ensures traffic { IfOk result (λ report. report.traffic ≡ []) }
    ensures legal { OnOk result (IsLegal (state S.Session cells.entry).setting (state S.Session cells.entry).history) }
{
    let (history, sessions) = cells.into_parts()?;
    let program = Bytes::from_slice(alloc, text)?;
    let traffic = Items::new(alloc);
    Ok(Record {
        program,
        history,
        sessions,
        traffic,
    })
}
