//! Bytes that are given away, and kept.
ghost use Rattle.std.specs.Prelude.{◌≡◌, ◌++◌, [], IfOk, length, take, drop, min};

use std::alloc::{AllocError, Global};
use std::marker::Model;

/// Bytes that are given away from front to back, of which those that were given are kept too.
#[derive(Drop)]
pub(crate) struct Tape {
    bytes: Vec<u8>,
    position: usize,
}

impl Model for Tape {
    ghost use Rattle.std.specs.Prelude.{◌≤◌, take, drop, length};
    ghost use Rattle.outside_traits.specs.Wires.{Taped};

    ghost Value = { Taped };

    ghost view = { λ t. record { given = take t.position t.bytes.items; left = drop t.position t.bytes.items } };

    ghost invariant = { λ t. t.position ≤ length t.bytes.items };
}

impl Tape {
    pub(crate) fn new(alloc: Global, bytes: &[u8]) -> Result<Tape, AllocError>
        ensures given { IfOk result (λ tape. tape.given ≡ []) }
        ensures left { IfOk result (λ tape. tape.left ≡ bytes.now) }
    {
        let bytes = Vec::from_slice(alloc, bytes)?;
        Ok(Tape { bytes, position: 0 })
    }

    /// Gives the next bytes, at most `most` of them, and says how many.
    pub(crate) fn give(&mut self, most: usize, into: &mut [u8]) -> usize
        ensures count { result ≡ min (length self.old.left) (min most (length into.old)) }
        ensures given { self.new.given ≡ self.old.given ++ take result into.new }
        ensures left { self.old.left ≡ take result into.new ++ self.new.left }
    {
        let (_, rest) = self.bytes.split_at(self.position);
        let count = rest.len().min(most).min(into.len());
        let (front, _) = rest.split_at(count);
        into[..count].copy_from_slice(front);
        self.position += count;
        count
    }

    /// What was given.
    pub(crate) fn given(&self) -> &[u8]
        ensures { result.now ≡ self.now.given }
    {
        let (given, _) = self.bytes.split_at(self.position);
        given
    }
}
