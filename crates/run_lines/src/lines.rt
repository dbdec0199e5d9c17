//! What was read, cut into lines.

ghost use Rattle.std.specs.Prelude.{◌≡◌, ◌≤◌, ◌<◌, ◌+◌, ◌^◌, [], ◌∷◌, ◌++◌, length, take, drop, position, ◌==◌, MatchOption, MatchResult, OnOk, IfOk};
ghost use Rattle.run_theorem.specs.Split.{IsOpen, split};
ghost use Rattle.run_lines.specs.Passing.{IsLine, longest_piece, nothing_read};

use crate::piece::Piece;
use outside_traits::{Failed, Source};
use std::alloc::{AllocError, Global};
use std::marker::Model;

/// How many bytes are asked of the source at a time.
const PIECE: usize = 4096;

/// Bytes that were read, of which the lines in front were passed. No line ends in what was seen after them.
#[derive(Drop)]
pub(crate) struct Lines {
    bytes: Vec<u8>,
    passed: usize,
    seen: usize,
}

impl Model for Lines {
    ghost use Rattle.std.specs.Prelude.{◌≡◌, ◌≤◌, ◌+◌, [], take, drop, length};
    ghost use Rattle.run_theorem.specs.Split.{split};
    ghost use Rattle.run_lines.specs.Passing.{Passing};

    ghost Value = { Passing };

    ghost view = { λ l. record { passed = take l.passed l.bytes.items; rest = drop l.passed l.bytes.items } };

    ghost invariant = { λ l. (l.passed + l.seen ≤ length l.bytes.items)
        × ((split (take l.seen (drop l.passed l.bytes.items))).0 ≡ [])
        × ((split (take l.passed l.bytes.items)).1 ≡ []) };
}

impl Lines {
    ghost use Rattle.run_lines.specs.FrontSteps.{reading, progress, IsMore, ReadsPiece};

    pub(crate) fn new(alloc: Global) -> Lines
        ensures { result ≡ nothing_read }
    {
        Lines {
            bytes: Vec::new(alloc),
            passed: 0,
            seen: 0,
        }
    }

    /// The length of the next line, where its end was read.
    pub(crate) fn find(&mut self) -> Option<usize>
        ensures same { self.new ≡ self.old }
        ensures ended { (split self.old.passed).1 ≡ [] }
        ensures found { MatchOption result (IsOpen self.old.rest) (λ n. IsLine n self.old.rest) }
        ensures within { progress self.old < 2 ^ 64 }
    {
        let seen = self.seen;
        match first_end(&self.bytes[self.passed + seen..]) {
            Some(more) => {
                self.seen = seen + more;
                Some(seen + more)
            }
            None => {
                self.seen = self.bytes.len() - self.passed;
                None
            }
        }
    }

    /// What stands after the lines that were passed.
    pub(crate) fn rest(&self) -> &[u8]
        ensures { result.now ≡ self.now.rest }
    {
        &self.bytes[self.passed..]
    }

    /// The next line, which is so long.
    pub(crate) fn line(&self, length: usize) -> &[u8]
        requires { IsLine length self.now.rest }
        ensures { result.now ≡ take length self.now.rest }
    {
        let (line, _) = self.rest().split_at(length);
        line
    }

    /// Passes the next line, which is so long, and its end.
    pub(crate) fn pass(&mut self, length: usize)
        requires { IsLine length self.old.rest }
        ensures passed { self.new.passed ≡ self.old.passed ++ take length self.old.rest ++ 10 ∷ [] }
        ensures rest { self.new.rest ≡ drop (length + 1) self.old.rest }
    {
        let end = self.passed + length;
        self.passed = end + 1;
        self.seen = 0;
    }

    /// Reads a piece after what was read. After want of memory nothing was read.
    pub(crate) fn fill<S: Source>(&mut self, source: &mut S) -> Result<Piece, AllocError>
        ensures read { MatchResult result
            (λ piece. ReadsPiece piece (reading self.old (S.told source.old).unread (S.told source.old).faults)
            (reading self.new (S.told source.new).unread (S.told source.new).faults))
            (λ _. (self.new ≡ self.old) × (source.new ≡ source.old)) }
        ensures short { OnOk result (length self.new.rest ≤ length self.old.rest + longest_piece) }
        ensures more { IfOk result (λ piece. IsMore piece self.old self.new) }
    {
        self.bytes.reserve(PIECE)?;
        let mut buffer = [0u8; PIECE];
        match source.read(&mut buffer) {
            Err(Failed) => Ok(Piece::Failed),
            Ok(0) => Ok(Piece::End),
            Ok(count) => {
                self.bytes.extend_from_slice(&buffer[..count]).unwrap();
                Ok(Piece::More)
            }
        }
    }

    /// All bytes that were read.
    pub(crate) fn into_bytes(self) -> Vec<u8>
        ensures { result.items ≡ self.passed ++ self.rest }
    {
        self.bytes
    }
}

/// Where a line ends first.
fn first_end(bytes: &[u8]) -> Option<usize>
    ensures { result ≡ position (λ b. b == 10) bytes.now }
{
    bytes.iter().position(|byte| *byte == b'\n')
}
