//! Bytes that are given away, and room for bytes that are taken.
ghost use Rattle.std.specs.Prelude.{◌≡◌, ◌++◌, [], IfOk, length, take, min};
ghost use Rattle.outside_traits.specs.Memory.{room_left};

use std::alloc::{AllocError, Global};
use std::marker::Model;

/// Bytes that are given away from the front.
#[derive(Drop)]
pub(crate) struct Supply {
    bytes: Vec<u8>,
    position: usize,
}

impl Model for Supply {
    ghost use Rattle.std.specs.Prelude.{◌≤◌, List, ℕ, drop, length};

    ghost Value = { List ℕ };

    ghost view = { λ s. drop s.position s.bytes.items };

    ghost invariant = { λ s. s.position ≤ length s.bytes.items };
}

impl Supply {
    pub(crate) fn new(alloc: Global, bytes: &[u8]) -> Result<Supply, AllocError>
        ensures { IfOk result (λ supply. supply ≡ bytes.now) }
    {
        let bytes = Vec::from_slice(alloc, bytes)?;
        Ok(Supply { bytes, position: 0 })
    }

    /// Gives the next bytes, at most `most` of them, and says how many.
    pub(crate) fn give(&mut self, most: usize, into: &mut [u8]) -> usize
        ensures count { result ≡ min (length self.old) (min most (length into.old)) }
        ensures bytes { self.old ≡ take result into.new ++ self.new }
    {
        let (_, rest) = self.bytes.split_at(self.position);
        let count = rest.len().min(most).min(into.len());
        let (front, _) = rest.split_at(count);
        into[..count].copy_from_slice(front);
        self.position += count;
        count
    }
}

/// Bytes that were taken, with room for a fixed number of them.
#[derive(Drop)]
pub(crate) struct Shelf {
    bytes: Vec<u8>,
    room: usize,
}

impl Model for Shelf {
    ghost use Rattle.std.specs.Prelude.{◌≤◌, vec_len, vec_capacity};
    ghost use Rattle.outside_traits.specs.Memory.{Shelved};

    ghost Value = { Shelved };

    ghost view = { λ s. record { taken = s.bytes.items; room = s.room } };

    ghost invariant = { λ s. (vec_len s.bytes ≤ s.room) × (s.room ≤ vec_capacity s.bytes) };
}

impl Shelf {
    pub(crate) fn new(alloc: Global, room: usize) -> Result<Shelf, AllocError>
        ensures taken { IfOk result (λ shelf. shelf.taken ≡ []) }
        ensures room { IfOk result (λ shelf. shelf.room ≡ room) }
    {
        let bytes = Vec::with_capacity(alloc, room)?;
        Ok(Shelf { bytes, room })
    }

    /// Takes a front of the bytes, as many as there is room for and at most `most`, and says how many.
    pub(crate) fn keep(&mut self, most: usize, from: &[u8]) -> usize
        ensures count { result ≡ min (room_left self.old) (min most (length from.now)) }
        ensures taken { self.new.taken ≡ self.old.taken ++ take result from.now }
        ensures room { self.new.room ≡ self.old.room }
    {
        let count = (self.room - self.bytes.len()).min(most).min(from.len());
        self.bytes.extend_from_slice(&from[..count]).unwrap();
        count
    }

    pub(crate) fn bytes(&self) -> &[u8]
        ensures { result.now ≡ self.now.taken }
    {
        self.bytes.as_slice()
    }
}
