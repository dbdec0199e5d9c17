//! Postings are received in until no more comes.
ghost use Rattle.std.specs.Prelude.{◌≡◌, ◌<◌, true, IfOk, OnOk, length};
ghost use Rattle.behaviour_tree.specs.PartsView.{parts_of};
ghost use Rattle.run_theorem.specs.Calls.{After};
ghost use Rattle.run_theorem.specs.Exchange.{Exchange, IsNew};
ghost use Rattle.run_sweep.specs.Courses.{Goes};
ghost use Rattle.run_cells.specs.RunStates.{AtWork};
ghost use Rattle.run_cells.specs.View.{run_state, state};
ghost use Rattle.run_posts.specs.CallStates.{waits};
ghost use Rattle.run_sweep.specs.Swept.{CompletedCallsBy};
ghost use Rattle.run_alone.specs.Between.{Between, Closed, Passed};
ghost use Rattle.run_alone.specs.Overs.{LeavesNone, asks};

use crate::alone::Alone;
use outside_links::Link;
use run_theorem::{Front, Next};
use session_turn::Seating;
use std::alloc::AllocError;

/// The most looks in a row that find nothing.
const MOST_LOOKS: u32 = 1_000_000;

impl<S: Seating> Alone<'_, S> {
    /// Takes in what a new front brings, until no more comes or the front halts. It says whether nothing is left to do;
    /// else a note failed.
    pub fn bring_in<F: Front, L: Link>(
        &mut self,
        front: &mut F,
        link: &mut L,
    ) -> Result<bool, AllocError>
        requires some { 0 < length (parts_of self.old.cells.program).services }
        requires work { AtWork (run_state S.Session self.old.cells) }
        requires between { Between (state S.Session self.old.cells) (waits self.old.pendings)
            self.old.pendings.postings true }
        ensures program { self.new.cells.program ≡ self.old.cells.program }
        ensures budget { OnOk result ((state S.Session self.new.cells).budget
            ≡ (state S.Session self.old.cells).budget) }
        ensures work { OnOk result (AtWork (run_state S.Session self.new.cells)) }
        ensures goes { OnOk result (Goes (state S.Session self.old.cells) (state S.Session self.new.cells)) }
        ensures between { IfOk result (Between (state S.Session self.new.cells) (waits self.new.pendings)
            self.new.pendings.postings) }
        ensures completed { OnOk result (CompletedCallsBy (state S.Session self.old.cells).setting
            (state S.Session self.old.cells).history (state S.Session self.new.cells).history (L.told link.old)
            (L.told link.new)) }
        ensures passed { IfOk result
            (λ unfailed. (first : F) (before : Exchange)
            → F.exchanged (parts_of self.old.cells.program) first front.old before → IsNew before
            → Passed (state S.Session self.old.cells) (waits self.old.pendings) self.old.pendings.postings before
            → After (F.exchanged (parts_of self.old.cells.program) first front.new)
            (λ now. Closed (state S.Session self.new.cells) (waits self.new.pendings) self.new.pendings.postings
            unfailed now × LeavesNone before now)) }
    {
        let mut looks = 0;
        let mut moves = 0;
        let mut unfailed = true;
        'looks: loop {
            let halted = front.halted();
            let going = may_ask(unfailed, halted, looks, moves, self.pendings.postings());
            if !going {
                return Ok(unfailed);
            }
            match front.next(self.cells.program())? {
                Next::Posting(posting) => {
                    looks = 0;
                    unfailed = self.take_in(front, link, &posting)?;
                }
                Next::Moved => {
                    looks = 0;
                    moves += 1;
                }
                Next::NotYet => looks += 1,
                Next::End => return Ok(unfailed),
            }
        }
    }
}

/// Whether a posting may be asked for.
fn may_ask(unfailed: bool, halted: bool, looks: u32, moves: u64, postings: u32) -> bool
    ensures { result ≡ asks unfailed halted looks moves postings }
{
    unfailed && !halted && looks < MOST_LOOKS && moves < u64::MAX && postings < u32::MAX
}
