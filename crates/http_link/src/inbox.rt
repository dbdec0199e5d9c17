//! The bytes that were read in a trip.
ghost use Rattle.std.specs.Prelude.{◌≡◌, ◌<◌, ◌≤◌, ◌+◌, ◌==◌, ◌++◌, [], ◌∷◌, ℕ, List, MatchResult, IfOk, false, length};
ghost use Rattle.std.specs.Io.{ReadsAtMost};
ghost use Rattle.std.specs.Io.KnownBytes.{Appends, WriteAppends};
ghost use Rattle.outside_traits.specs.Calls.{moved};
ghost use Rattle.httparse.specs.Spans.{IsWithin, span_bytes};
ghost use Rattle.outside_traits.specs.Told.{Lists};
ghost use Rattle.outside_traits.specs.declared.calls.WireCall.TheVariants.{Read};
ghost use Rattle.outside_dials.specs.Dials.{traffic};
ghost use Rattle.http_link.specs.Steps.{IsUnfailed, IsLost};
ghost use Rattle.http_link.specs.Trips.{most_read};

use http_port::{LONGEST_BODY, LONGEST_HEAD};
use httparse::spans::Span;
use outside_traits::{Failed, Wire};
use std::alloc::{AllocError, Global};
use std::marker::Model;

/// The most bytes that are read: those of the longest head part and the longest body, and one more, which shows that a
/// body is too long.
pub(crate) const MOST_READ: usize = LONGEST_HEAD + LONGEST_BODY as usize + 1;

/// How many bytes are read at once.
const CHUNK: usize = 4096;

/// What was read, with room for all that may be.
#[derive(Drop)]
pub(crate) struct Inbox {
    bytes: Vec<u8>,
}

impl Model for Inbox {
    ghost use Rattle.std.specs.Prelude.{◌≤◌, List, ℕ, vec_len, vec_capacity};
    ghost use Rattle.http_link.specs.Trips.{most_read};

    ghost Value = { List ℕ };

    ghost view = { λ i. i.bytes.items };

    ghost invariant = { λ i. (vec_len i.bytes ≤ most_read) × (most_read ≤ vec_capacity i.bytes) };
}

impl Inbox {
    pub(crate) fn new(alloc: Global) -> Result<Inbox, AllocError>
        ensures { IfOk result (λ inbox. inbox ≡ []) }
    {
        let bytes = Vec::with_capacity(alloc, MOST_READ)?;
        Ok(Inbox { bytes })
    }

    pub(crate) fn as_slice(&self) -> &[u8]
        ensures { result.now ≡ self.now }
    {
        self.bytes.as_slice()
    }

    pub(crate) fn len(&self) -> usize
        ensures len { result ≡ length self.now }
        ensures most { length self.now ≤ most_read }
    {
        self.bytes.len()
    }

    /// Reads once, and says how many bytes came.
    pub(crate) fn fill<W: Wire>(&mut self, wire: &mut W) -> Result<usize, Failed>
        requires room { length self.old < most_read }
        requires open { (W.told wire.old).closed ≡ false }
        ensures read { MatchResult result
            (λ count. (piece : List ℕ) × (length piece ≡ count) × (self.new ≡ self.old ++ piece)
            × Appends (W.told wire.old).read (W.told wire.new).read piece
            × Lists (W.told wire.old).calls (W.told wire.new).calls (Read count ∷ []))
            (λ _. (self.new ≡ self.old) × Appends (W.told wire.old).read (W.told wire.new).read []
            × Lists (W.told wire.old).calls (W.told wire.new).calls (Read 0 ∷ [])) }
        ensures bounded { length self.new ≤ most_read }
        ensures taken { (W.told wire.new).written ≡ (W.told wire.old).written }
        ensures open { (W.told wire.new).closed ≡ false }
        ensures told { MatchResult result
            (λ count. IsUnfailed (traffic (W.told wire.old)) (traffic (W.told wire.new)) (count == 0))
            (λ _. IsLost (traffic (W.told wire.old)) (traffic (W.told wire.new))) }
    {
        let mut chunk = [0; CHUNK];
        let room = (MOST_READ - self.bytes.len()).min(CHUNK);
        match read_some(wire, &mut chunk[..room]) {
            Ok(count) => {
                self.keep(&chunk[..count]);
                Ok(count)
            }
            Err(Failed) => Err(Failed),
        }
    }

    /// Takes more bytes, for which there is room.
    fn keep(&mut self, more: &[u8])
        requires { length self.old + length more.now ≤ most_read }
        ensures { self.new ≡ self.old ++ more.now }
    {
        self.bytes.extend_from_slice(more).unwrap();
    }

    /// What was read in a place, in the memory that it was read into.
    pub(crate) fn into_part(self, place: Span) -> Vec<u8>
        requires { IsWithin (length self) place }
        ensures { result.items ≡ span_bytes self place }
    {
        let mut bytes = self.bytes;
        bytes.truncate(place.end);
        bytes.rotate_left(place.start);
        bytes.truncate(place.end - place.start);
        bytes
    }
}

/// Reads once, where there is room for some bytes, and says how many came.
fn read_some<W: Wire>(wire: &mut W, into: &mut [u8]) -> Result<usize, Failed>
    requires open { (W.told wire.old).closed ≡ false }
    requires some { 0 < length into.old }
    ensures bound { ReadsAtMost result into.new }
    ensures given { WriteAppends (W.told wire.old).read (W.told wire.new).read result into.new }
    ensures taken { (W.told wire.new).written ≡ (W.told wire.old).written }
    ensures calls { Lists (W.told wire.old).calls (W.told wire.new).calls (Read (moved result) ∷ []) }
    ensures open { (W.told wire.new).closed ≡ false }
    ensures told { MatchResult result
        (λ count. IsUnfailed (traffic (W.told wire.old)) (traffic (W.told wire.new)) (count == 0))
        (λ _. IsLost (traffic (W.told wire.old)) (traffic (W.told wire.new))) }
{
    wire.read(into)
}
