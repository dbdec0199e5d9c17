ghost use Rattle.std.specs.Prelude.{◌≡◌, ◌<◌, ◌↔◌, [], Ok, IfOk, IfSome, IsErr, Some, length, map, string_bytes, take, min};
ghost use Rattle.std.specs.Io.{ReadsAtMost, WritesAtMost};
ghost use Rattle.std.specs.Io.KnownBytes.{ReadConsumes, WriteAppends};
ghost use Rattle.outside_traits.specs.Causes.{HasCause};
ghost use Rattle.outside_traits.specs.Memory.{room_left};

use crate::errors::{CallError, Failed};
use crate::memory::{Shelf, Supply};
use crate::names::Names;
use crate::traits::{Files, Sink, Source};
use std::alloc::{AllocError, Global};
use std::marker::Model;

/// Bytes in memory, which come without a failure.
#[derive(Drop)]
pub struct UnfailingSource {
    supply: Supply,
}

impl Model for UnfailingSource {
    ghost use Rattle.std.specs.Prelude.{List, ℕ};

    ghost Value = { List ℕ };

    ghost view = { λ s. s.supply };
}

impl UnfailingSource {
    pub fn new(alloc: Global, bytes: &[u8]) -> Result<UnfailingSource, AllocError>
        ensures { IfOk result (λ source. source ≡ bytes.now) }
    {
        let supply = Supply::new(alloc, bytes)?;
        Ok(UnfailingSource { supply })
    }
}

impl Source for UnfailingSource {
    ghost told = { λ left. record { unread = Some left; faults = 0 } };

    fn read(&mut self, into: &mut [u8]) -> Result<usize, Failed>
        ensures count { result ≡ Ok (min (length self.old) (length into.old)) }
        ensures bound { ReadsAtMost result into.new }
        ensures bytes { ReadConsumes (Some self.old) (Some self.new) result into.new }
        ensures cause { HasCause 0 0 result }
    {
        Ok(self.supply.give(into.len(), into))
    }
}

/// A sink in memory. It fails only where the room that it was made with is used up, which it counts.
#[derive(Drop)]
pub struct UnfailingSink {
    shelf: Shelf,
    faults: u64,
}

impl Model for UnfailingSink {
    ghost use Rattle.outside_traits.specs.Memory.{Taking};

    ghost Value = { Taking };

    ghost view = { λ s. record { shelf = s.shelf; faults = s.faults } };
}

impl UnfailingSink {
    pub fn new(alloc: Global, room: usize) -> Result<UnfailingSink, AllocError>
        ensures taken { IfOk result (λ sink. sink.shelf.taken ≡ []) }
        ensures room { IfOk result (λ sink. sink.shelf.room ≡ room) }
        ensures faults { IfOk result (λ sink. sink.faults ≡ 0) }
    {
        let shelf = Shelf::new(alloc, room)?;
        Ok(UnfailingSink { shelf, faults: 0 })
    }

    /// What was taken.
    pub fn bytes(&self) -> &[u8]
        ensures { result.now ≡ self.now.shelf.taken }
    {
        self.shelf.bytes()
    }
}

impl Sink for UnfailingSink {
    ghost told = { λ s. record { written = Some s.shelf.taken; faults = s.faults } };

    fn write(&mut self, from: &[u8]) -> Result<usize, Failed>
        ensures full { IsErr result ↔ (room_left self.old.shelf ≡ 0) × (0 < length from.now) }
        ensures count { IfOk result (λ count. count ≡ min (room_left self.old.shelf) (length from.now)) }
        ensures room { self.new.shelf.room ≡ self.old.shelf.room }
        ensures bound { WritesAtMost result from.now }
        ensures some { IfOk result (λ count. 0 < length from.now → 0 < count) }
        ensures bytes { WriteAppends (Some self.old.shelf.taken) (Some self.new.shelf.taken) result from.now }
        ensures cause { HasCause self.old.faults self.new.faults result }
    {
        let count = self.shelf.keep(from.len(), from);
        if count == 0 && !from.is_empty() {
            self.faults = self.faults.saturating_add(1);
            return Err(Failed);
        }
        Ok(count)
    }
}

/// Files in memory, which are read without a failure. Each name is a file of the same bytes.
#[derive(Drop)]
pub struct UnfailingFiles {
    alloc: Global,
    content: Vec<u8>,
    asked: Names,
}

impl Model for UnfailingFiles {
    ghost use Rattle.outside_traits.specs.Memory.{UnfailingStore};

    ghost Value = { UnfailingStore };

    ghost view = { λ f. record { content = f.content.items; asked = f.asked } };
}

impl UnfailingFiles {
    pub fn new(alloc: Global, content: &[u8]) -> Result<UnfailingFiles, AllocError>
        ensures content { IfOk result (λ files. files.content ≡ content.now) }
        ensures asked { IfOk result (λ files. files.asked ≡ Some []) }
    {
        let content = Vec::from_slice(alloc, content)?;
        Ok(UnfailingFiles {
            alloc,
            content,
            asked: Names::new(alloc),
        })
    }

    /// The names that were asked for in order: all, where they are told.
    pub fn asked(&self) -> &[String]
        ensures { IfSome self.now.asked (λ names. map string_bytes result.now ≡ names) }
    {
        self.asked.noted()
    }
}

impl Files for UnfailingFiles {
    ghost held = { λ f _. Some f.content };

    ghost told = { λ f. record { asked = f.asked; faults = 0 } };

    fn read(&mut self, name: &str, most: u64) -> Result<Vec<u8>, CallError> {
        self.asked.note(name)?;
        Ok(front_of(self.alloc, &self.content, most)?)
    }
}

/// A copy of the first `most` bytes, or of all where there are fewer.
pub(crate) fn front_of(alloc: Global, bytes: &[u8], most: u64) -> Result<Vec<u8>, AllocError>
    ensures { IfOk result (λ front. front.items ≡ take most bytes.now) }
{
    let count = (bytes.len() as u64).min(most) as usize;
    Vec::from_slice(alloc, &bytes[..count])
}
