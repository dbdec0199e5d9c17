ghost use Rattle.std.specs.Prelude.{◌≡◌, ◌+◌, ◌<◌, ◌^◌, true, if◌then◌else◌, is_ok, IfOk, length};
ghost use Rattle.frame_arena.specs.Lines as spec;

use super::Arena;
use crate::row::{grow, live_row, row_of, squeeze};
use crate::strand::StrandNo;
use std::alloc::AllocError;

impl<F: Copy, K: Drop> Arena<F, K> {
    /// Adds so many strands, which have nothing yet, as the members of one; the first of them.
    pub fn fork(&mut self, strand: StrandNo, count: u64) -> Result<StrandNo, AllocError>
        requires live { spec.is_live self.old strand.number ≡ true }
        requires numbers { length self.old + count < 2 ^ 64 }
        ensures strands { self.new ≡ (if is_ok result then spec.forked self.old strand.number count else self.old) }
        ensures first { IfOk result (λ s. s.number ≡ length self.old) }
    {
        let first = self.next;
        grow(&mut self.rows, self.alloc, strand.number, first, count)?;
        self.next = first + count;
        let place = live_row(&self.rows, strand.number);
        let row = &mut self.rows[place];
        row.first = first;
        row.count = count;
        row.undone = count;
        Ok(StrandNo { number: first })
    }

    /// Leaves a strand without members.
    pub fn disband(&mut self, strand: StrandNo)
        ensures { self.new ≡ spec.with_members self.old strand.number 0 0 }
    {
        let Some(place) = row_of(&self.rows, strand.number) else {
            return;
        };
        let row = &mut self.rows[place];
        row.first = 0;
        row.count = 0;
        row.undone = 0;
    }

    /// Takes a strand away, with its frames and what it keeps.
    pub fn free(&mut self, strand: StrandNo)
        ensures { self.new ≡ spec.without self.old strand.number }
    {
        self.give_up(strand);
        self.tidy();
    }

    /// Takes a strand away, and leaves its row.
    fn give_up(&mut self, strand: StrandNo)
        ensures { self.new ≡ spec.without self.old strand.number }
    {
        let Some(place) = row_of(&self.rows, strand.number) else {
            return;
        };
        let row = &mut self.rows[place];
        row.is_live = false;
        row.frames.clear();
        row.kept.clear();
        self.freed = self.freed.saturating_add(1);
    }

    /// Takes out the rows of strands that are not there any more, where they may be more than half of all.
    fn tidy(&mut self)
        ensures { self.new ≡ self.old }
    {
        if self.freed <= self.rows.len() as u64 / 2 {
            return;
        }
        squeeze(&mut self.rows);
        self.freed = 0;
    }
}
