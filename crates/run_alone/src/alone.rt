//! A run under way, and how a posting is taken in.
ghost use Rattle.std.specs.Prelude.{◌≡◌, ◌<◌, suc, true, IfOk, OnOk};
ghost use Rattle.behaviour_tree.specs.PartsView.{parts_of};
ghost use Rattle.run_theorem.specs.Calls.{After, most_postings};
ghost use Rattle.run_theorem.specs.Exchange.{Exchange};
ghost use Rattle.run_sweep.specs.Courses.{Goes};
ghost use Rattle.run_cells.specs.RunStates.{AtWork};
ghost use Rattle.run_cells.specs.View.{run_state, state};
ghost use Rattle.run_posts.specs.CallStates.{waits};
ghost use Rattle.run_sweep.specs.Swept.{CompletedCallsBy};
ghost use Rattle.run_alone.specs.Between.{Answered, Between, Brings};

use office_core::Posting;
use outside_links::Link;
use run_cells::Cells;
use run_posts::Pendings;
use run_sweep::sweep;
use run_theorem::Front;
use session_turn::{Seating, Session};
use std::alloc::{AllocError, Global};

/// A run under way: its sessions with their office, and the postings that were not answered yet.
#[derive(Drop)]
pub(crate) struct Alone<'p, S: Session> {
    pub alloc: Global,
    pub cells: Cells<'p, S>,
    pub pendings: Pendings,
}

impl<S: Seating> Alone<'_, S> {
    /// Takes in a posting: its calls are posted, all that can be done is done, and what is finished is answered. It
    /// says whether nothing is left to do; else a note failed.
    pub fn take_in<F: Front, L: Link>(
        &mut self,
        front: &mut F,
        link: &mut L,
        posting: &Posting,
    ) -> Result<bool, AllocError>
        requires work { AtWork (run_state S.Session self.old.cells) }
        requires between { Between (state S.Session self.old.cells) (waits self.old.pendings)
            self.old.pendings.postings true }
        requires room { self.old.pendings.postings < most_postings }
        ensures program { self.new.cells.program ≡ self.old.cells.program }
        ensures budget { OnOk result ((state S.Session self.new.cells).budget
            ≡ (state S.Session self.old.cells).budget) }
        ensures work { OnOk result (AtWork (run_state S.Session self.new.cells)) }
        ensures goes { OnOk result (Goes (state S.Session self.old.cells) (state S.Session self.new.cells)) }
        ensures count { OnOk result (self.new.pendings.postings ≡ suc self.old.pendings.postings) }
        ensures between { IfOk result (Between (state S.Session self.new.cells) (waits self.new.pendings)
            self.new.pendings.postings) }
        ensures completed { OnOk result (CompletedCallsBy (state S.Session self.old.cells).setting
            (state S.Session self.old.cells).history (state S.Session self.new.cells).history (L.told link.old)
            (L.told link.new)) }
        ensures passed { IfOk result
            (λ unfailed. (first : F) (before : Exchange)
            → F.exchanged (parts_of self.old.cells.program) first front.old before
            → Brings (state S.Session self.old.cells) (waits self.old.pendings) self.old.pendings.postings posting.now
            before → After (F.exchanged (parts_of self.old.cells.program) first front.new)
            (Answered (state S.Session self.new.cells) (waits self.new.pendings) self.new.pendings.postings unfailed
            before)) }
    {
        self.pendings.post(&mut self.cells, posting)?;
        let unfailed = sweep(self.alloc, &mut self.cells, front, link)?;
        self.pendings.collect_all(&mut self.cells)?;
        self.pendings.tell_finished(self.cells.program(), front)?;
        Ok(unfailed)
    }
}
