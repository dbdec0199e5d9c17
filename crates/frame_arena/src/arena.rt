ghost use Rattle.std.specs.Prelude.{◌≡◌, ◌∷◌, ◌≤◌, true, false, [], IfOk, IfSome, MatchOption, None, length, option_map, ℕ};
ghost use Rattle.frame_arena.specs.Entries.{entry};
ghost use Rattle.frame_arena.specs.Lines as spec;

mod forks;
mod frames;
mod kept;

use crate::row::{Row, live_row, new_row, next_row, row_of};
use crate::strand::{Members, StrandNo};
use std::alloc::{AllocError, Global};
use std::marker::Model;

/// The strands of a session by their numbers. Numbers are given one after the other, and none twice.
#[derive(Drop)]
pub struct Arena<F, K> {
    rows: Vec<Row<F, K>>,
    next: u64,
    freed: u64,
    alloc: Global,
}

impl<F, K> Model for Arena<F, K> {
    ghost use Rattle.std.specs.Prelude.{List};
    ghost use Rattle.std.specs.Coded.{coded_list};
    ghost use Rattle.frame_arena.specs.Line.{Line, line_code};
    ghost use Rattle.frame_arena.specs.Entries.{entries, lines_from};
    ghost use Rattle.frame_arena.specs.Places.{IsSound};

    ghost Value = { List (Line F K) };

    ghost coded = { coded_list (line_code F.code K.code) };

    ghost view = { λ a. lines_from (entries a.rows.items) 0 a.next };

    ghost invariant = { λ a. IsSound (entries a.rows.items) a.next };
}

impl<F: Copy, K: Drop> Arena<F, K> {
    /// The root strand alone, which has nothing yet.
    pub fn new(alloc: Global) -> Result<Arena<F, K>, AllocError>
        ensures { IfOk result (λ a. a ≡ spec.new_line None ∷ []) }
    {
        let mut rows = Vec::new(alloc);
        rows.push(new_row(alloc, 0, None))?;
        Ok(Arena {
            rows,
            next: 1,
            freed: 0,
            alloc,
        })
    }

    /// The number that the next strand will have.
    pub fn next(&self) -> StrandNo
        ensures { result.number ≡ length self.now }
    {
        StrandNo { number: self.next }
    }

    /// Whether a strand is there.
    pub fn is_live(&self, strand: StrandNo) -> bool
        ensures { result ≡ spec.is_live self.now strand.number }
    {
        match self.row(strand) {
            Some(_) => true,
            None => false,
        }
    }

    /// The first strand that is there, from a number on.
    pub fn next_live(&self, from: StrandNo) -> Option<StrandNo>
        ensures { MatchOption result
            ((n : ℕ) → from.number ≤ n → spec.is_live self.now n ≡ false)
            (λ s. spec.IsNext self.now from.number s.number) }
    {
        match next_row(&self.rows, from.number) {
            Some(place) => Some(StrandNo {
                number: self.rows[place].number,
            }),
            None => None,
        }
    }

    /// The strand that a strand is a member of.
    pub fn parent(&self, strand: StrandNo) -> Option<StrandNo>
        ensures { option_map (λ s. s.number) result ≡ (spec.line_at self.now strand.number).parent }
    {
        match self.row(strand) {
            Some(row) => match row.parent {
                Some(number) => Some(StrandNo { number }),
                None => None,
            },
            None => None,
        }
    }

    /// The members of a strand.
    pub fn members(&self, strand: StrandNo) -> Members
        ensures first { result.first.number ≡ (spec.line_at self.now strand.number).first }
        ensures count { result.count ≡ (spec.line_at self.now strand.number).count }
    {
        match self.row(strand) {
            Some(row) => Members {
                first: StrandNo { number: row.first },
                count: row.count,
            },
            None => Members {
                first: StrandNo { number: 0 },
                count: 0,
            },
        }
    }

    /// How many members of a strand are not done yet, as was last said.
    pub fn undone(&self, strand: StrandNo) -> u64
        ensures { result ≡ (spec.line_at self.now strand.number).undone }
    {
        match self.row(strand) {
            Some(row) => row.undone,
            None => 0,
        }
    }

    /// Says how many members of a strand are not done yet.
    pub fn set_undone(&mut self, strand: StrandNo, undone: u64)
        requires { spec.is_live self.old strand.number ≡ true }
        ensures { self.new ≡ spec.with_undone self.old strand.number undone }
    {
        let place = live_row(&self.rows, strand.number);
        self.rows[place].undone = undone;
    }

    /// The members of each strand were given numbers after its own.
    pub fn is_ordered(&self)
        ensures { spec.IsOrdered self.now }
    {
        let _ = &self.rows;
    }

    /// The row of a strand that is there.
    fn row(&self, strand: StrandNo) -> Option<&Row<F, K>>
        ensures row { MatchOption result
            (spec.line_at self.now strand.number ≡ spec.no_line)
            (λ r. spec.line_at self.now strand.number ≡ (entry r.now).line) }
        ensures live { IfSome result (λ r. r.now.is_live ≡ true) }
    {
        match row_of(&self.rows, strand.number) {
            Some(place) => Some(&self.rows[place]),
            None => None,
        }
    }
}
