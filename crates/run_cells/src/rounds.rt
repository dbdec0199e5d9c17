//! Rounds: each session has its turns.
ghost use Rattle.std.specs.Prelude.{◌≡◌, ℕ, ◌≤◌, ◌<◌, ◌||◌, true, IfOk, OnOk, Some, length, slice_get};
ghost use Rattle.office_plain.specs.View.{entries_of};
ghost use Rattle.run_cells.specs.Awake.{IsOn};
ghost use Rattle.run_cells.specs.RunStates.{AtWork, HasHeardAll, Rests, Stand};
ghost use Rattle.run_cells.specs.View.{run_state, state};
ghost use Rattle.run_cells.specs.Turns.{CameTo};
ghost use Rattle.run_cells.specs.Rounds.{Adopted, Went};
ghost use Rattle.run_cells.specs.Visits.{IsNext, IsNextFrom, Skips};

use crate::cells::Cells;
use crate::turns::picks_behind;
use session_turn::Seating;
use std::alloc::AllocError;

impl<S: Seating> Cells<'_, S> {
    /// Gives each session, in order of number, its turns; one that was not adopted yet is adopted first. It says
    /// whether one did something.
    pub fn all_turns(&mut self) -> Result<bool, AllocError>
        requires work { AtWork (run_state S.Session self.old) }
        ensures program { self.new.program ≡ self.old.program }
        ensures went { IfOk result (Went (state S.Session self.old) (state S.Session self.new)) }
        ensures work { OnOk result (AtWork (run_state S.Session self.new)) }
    {
        self.hear_all()?;
        let mut moved = false;
        let mut number = 0;
        'round: loop {
            let next = self.skip(number);
            let came = self.comes(next)?;
            if !came {
                return Ok(moved);
            }
            let did = self.turns_of(next)?;
            self.hear_all()?;
            self.lay(next);
            let both = either(moved, did);
            moved = both;
            number = next + 1;
        }
    }

    /// Looks at the entries that came, and wakes those for whom they may bring something.
    fn hear_all(&mut self) -> Result<(), AllocError>
        requires work { AtWork (run_state S.Session self.old) }
        ensures program { self.new.program ≡ self.old.program }
        ensures same { OnOk result (state S.Session self.new ≡ state S.Session self.old) }
        ensures heard { OnOk result (HasHeardAll (run_state S.Session self.new)) }
        ensures work { OnOk result (AtWork (run_state S.Session self.new)) }
    {
        let cells = self.cells.len();
        let count = cells as u32;
        'entries: loop {
            let heard = self.news.heard;
            let entries = self.office.history().entries.len();
            if entries <= heard {
                return Ok(());
            }
            self.news.hear_next(&self.office, count)?;
        }
    }

    /// The number of the first session from a number on that is awake, or else of the one that is born next. Those
    /// before it sleep: the picks for their turns are dropped.
    fn skip(&mut self, number: usize) -> usize
        requires work { AtWork (run_state S.Session self.old) }
        requires heard { HasHeardAll (run_state S.Session self.old) }
        requires within { number ≤ length self.old.cells.items }
        ensures program { self.new.program ≡ self.old.program }
        ensures next { IsNext (run_state S.Session self.new) result }
        ensures skipped { Skips number result (state S.Session self.old) (state S.Session self.new) }
        ensures within { result ≤ length self.new.cells.items }
        ensures heard { HasHeardAll (run_state S.Session self.new) }
        ensures work { AtWork (run_state S.Session self.new) }
    {
        let next = self.next_from(number);
        let count = next - number;
        self.picks = picks_behind(self.picks, count);
        next
    }

    /// The number of the first session from a number on that is awake, or else of the one that is born next.
    fn next_from(&self, number: usize) -> usize
        requires work { AtWork (run_state S.Session self.now) }
        requires within { number ≤ length self.now.cells.items }
        ensures { IsNextFrom (run_state S.Session self.now) number result }
    {
        match self.news.awake.first_from(number as u32) {
            Some(next) => next as usize,
            None => self.cells.len(),
        }
    }

    /// Lays a session down that did nothing after all entries: it sleeps. That is for speed alone, and no clause says
    /// it.
    fn lay(&mut self, number: usize)
        requires work { AtWork (run_state S.Session self.old) }
        requires heard { HasHeardAll (run_state S.Session self.old) }
        requires there { number < length self.old.cells.items }
        requires rests { (st : Stand) → slice_get (state S.Session self.old).stands number ≡ Some st
            → Rests (state S.Session self.old) number st (state S.Session self.old).history }
        ensures program { self.new.program ≡ self.old.program }
        ensures same { state S.Session self.new ≡ state S.Session self.old }
        ensures heard { HasHeardAll (run_state S.Session self.new) }
        ensures work { AtWork (run_state S.Session self.new) }
    {
        self.news.awake.lay(number as u32);
    }

    /// Whether there is a session of a number; one that was born is adopted.
    fn comes(&mut self, number: usize) -> Result<bool, AllocError>
        requires work { AtWork (run_state S.Session self.old) }
        requires next { IsNext (run_state S.Session self.old) number }
        requires within { number ≤ length self.old.cells.items }
        ensures program { self.new.program ≡ self.old.program }
        ensures came { IfOk result (CameTo number (state S.Session self.old) (state S.Session self.new)) }
        ensures awake { IfOk result (λ came. came ≡ true → IsOn self.new.news.awake number) }
        ensures work { OnOk result (AtWork (run_state S.Session self.new)) }
    {
        let count = self.cells.len();
        if number < count {
            return Ok(true);
        }
        self.adopt_next()
    }

    /// Adopts all sessions that were born.
    pub fn adopt_all(&mut self) -> Result<(), AllocError>
        requires work { AtWork (run_state S.Session self.old) }
        ensures program { self.new.program ≡ self.old.program }
        ensures adopted { OnOk result (Adopted (state S.Session self.old) (state S.Session self.new)) }
        ensures work { OnOk result (AtWork (run_state S.Session self.new)) }
    {
        'adoptions: loop {
            let adopted = self.adopt_next()?;
            if !adopted {
                return Ok(());
            }
        }
    }
}

/// Whether one of two things is so.
fn either(one: bool, other: bool) -> bool
    ensures { result ≡ (one || other) }
{
    one || other
}
