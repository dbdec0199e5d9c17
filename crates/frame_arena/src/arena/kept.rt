ghost use Rattle.std.specs.Prelude.{◌≡◌, [], true};
ghost use Rattle.frame_arena.specs.Lines as spec;

use super::Arena;
use crate::row::{live_row, row_of};
use crate::strand::StrandNo;
use std::mem;

impl<F: Copy, K: Drop> Arena<F, K> {
    /// What a strand keeps beside its frames.
    pub fn kept(&self, strand: StrandNo) -> &[K]
        ensures { result.now ≡ spec.kept_of self.now strand.number }
    {
        match self.row(strand) {
            Some(row) => row.kept.as_slice(),
            None => &[],
        }
    }

    /// Takes all that a strand keeps.
    pub fn take_kept(&mut self, strand: StrandNo) -> Vec<K>
        ensures kept { result.items ≡ spec.kept_of self.old strand.number }
        ensures rest { self.new ≡ spec.with_kept self.old strand.number [] }
    {
        match row_of(&self.rows, strand.number) {
            Some(row) => mem::replace(&mut self.rows[row].kept, Vec::new(self.alloc)),
            None => Vec::new(self.alloc),
        }
    }

    /// Puts in place of all that a strand keeps.
    pub fn put_kept(&mut self, strand: StrandNo, kept: Vec<K>)
        requires { spec.is_live self.old strand.number ≡ true }
        ensures { self.new ≡ spec.with_kept self.old strand.number kept.items }
    {
        let row = live_row(&self.rows, strand.number);
        self.rows[row].kept = kept;
    }
}
