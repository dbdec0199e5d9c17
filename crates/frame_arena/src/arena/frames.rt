ghost use Rattle.std.specs.Prelude.{◌≡◌, ◌<◌, ◌-◌, ◌++◌, ◌∷◌, [], true, if◌then◌else◌, is_ok, length, slice_get, slice_set, take};
ghost use Rattle.frame_arena.specs.Lines as spec;

use super::Arena;
use crate::row::{live_row, row_of};
use crate::strand::StrandNo;
use std::alloc::AllocError;

impl<F: Copy, K: Drop> Arena<F, K> {
    /// How many frames a strand has.
    pub fn depth(&self, strand: StrandNo) -> usize
        ensures { result ≡ length (spec.frames_of self.now strand.number) }
    {
        match self.row(strand) {
            Some(row) => row.frames.len(),
            None => 0,
        }
    }

    /// The frame at a place from the bottom.
    pub fn frame(&self, strand: StrandNo, place: usize) -> Option<F>
        ensures { result ≡ slice_get (spec.frames_of self.now strand.number) place }
    {
        match self.row(strand) {
            Some(row) => row.frames.get(place).copied(),
            None => None,
        }
    }

    /// The frame on top.
    pub fn top(&self, strand: StrandNo) -> Option<F>
        ensures { let fs = spec.frames_of self.now strand.number in result ≡ slice_get fs (length fs - 1) }
    {
        match self.row(strand) {
            Some(row) => row.frames.last().copied(),
            None => None,
        }
    }

    /// Puts a frame on top.
    pub fn push(&mut self, strand: StrandNo, frame: F) -> Result<(), AllocError>
        requires { spec.is_live self.old strand.number ≡ true }
        ensures { self.new
            ≡ (if is_ok result then spec.with_frames self.old strand.number (spec.frames_of self.old strand.number ++ frame ∷ [])
            else self.old) }
    {
        let row = live_row(&self.rows, strand.number);
        self.rows[row].frames.push(frame)?;
        Ok(())
    }

    /// Changes the frame at a place from the bottom.
    pub fn put(&mut self, strand: StrandNo, place: usize, frame: F)
        requires { place < length (spec.frames_of self.old strand.number) }
        ensures { self.new ≡ spec.with_frames self.old strand.number (slice_set (spec.frames_of self.old strand.number) place frame) }
    {
        let Some(row) = row_of(&self.rows, strand.number) else {
            return;
        };
        self.rows[row].frames[place] = frame;
    }

    /// Takes the frame on top.
    pub fn pop(&mut self, strand: StrandNo) -> Option<F>
        ensures top { let fs = spec.frames_of self.old strand.number in result ≡ slice_get fs (length fs - 1) }
        ensures rest { let fs = spec.frames_of self.old strand.number in
            self.new ≡ spec.with_frames self.old strand.number (take (length fs - 1) fs) }
    {
        match row_of(&self.rows, strand.number) {
            Some(row) => self.rows[row].frames.pop(),
            None => None,
        }
    }

    /// Keeps so many frames from the bottom.
    pub fn cut(&mut self, strand: StrandNo, depth: usize)
        ensures { self.new ≡ spec.with_frames self.old strand.number (take depth (spec.frames_of self.old strand.number)) }
    {
        let Some(row) = row_of(&self.rows, strand.number) else {
            return;
        };
        self.rows[row].frames.truncate(depth);
    }
}
