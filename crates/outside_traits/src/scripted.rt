ghost use Rattle.std.specs.Prelude.{◌≡◌, ◌<◌, ◌≤◌, ◌↔◌, ◌⊎◌, [], ◌∷◌, Some, IfOk, IfSome, IsErr, IsErrOf, Contains, length, map, min, string_bytes, take};
ghost use Rattle.std.specs.Io.{ReadsAtMost, WritesAtMost};
ghost use Rattle.std.specs.Io.KnownBytes.{ReadConsumes, WriteAppends};
ghost use Rattle.outside_traits.specs.Causes.{HasCause, HasCallCause};
ghost use Rattle.outside_traits.specs.Memory.{room_left, IsNext};
ghost use Rattle.outside_traits.specs.Told.{Lists};

use crate::errors::{CallError, Failed};
use crate::memory::{Shelf, Supply};
use crate::names::Names;
use crate::script::Script;
use crate::traits::{Files, Sink, Source};
use crate::unfailed::front_of;
use std::alloc::{AllocError, Global};
use std::marker::Model;

/// Bytes in memory that come in pieces, with the failures of a script.
#[derive(Drop)]
pub struct ScriptedSource {
    script: Script,
    supply: Supply,
    piece: usize,
}

impl Model for ScriptedSource {
    ghost use Rattle.std.specs.Prelude.{◌<◌};
    ghost use Rattle.outside_traits.specs.Memory.{ScriptedInput};

    ghost Value = { ScriptedInput };

    ghost view = { λ s. record { script = s.script; left = s.supply; piece = s.piece } };

    ghost invariant = { λ s. 0 < s.piece };
}

impl ScriptedSource {
    /// A source of these bytes that gives at most `piece` of them a call.
    pub fn new(
        alloc: Global,
        bytes: &[u8],
        piece: usize,
        script: Script,
    ) -> Result<ScriptedSource, AllocError>
        requires { 0 < piece }
        ensures script { IfOk result (λ source. source.script ≡ script) }
        ensures left { IfOk result (λ source. source.left ≡ bytes.now) }
        ensures piece { IfOk result (λ source. source.piece ≡ piece) }
    {
        let supply = Supply::new(alloc, bytes)?;
        Ok(ScriptedSource {
            script,
            supply,
            piece,
        })
    }
}

impl Source for ScriptedSource {
    ghost told = { λ s. record { unread = Some s.left; faults = s.script.faults } };

    fn read(&mut self, into: &mut [u8]) -> Result<usize, Failed>
        ensures scripted { IsErr result ↔ Contains self.old.script.failing self.old.script.call }
        ensures count { IfOk result
            (λ count. count ≡ min (length self.old.left) (min self.old.piece (length into.old))) }
        ensures script { IsNext self.old.script self.new.script }
        ensures piece { self.new.piece ≡ self.old.piece }
        ensures bound { ReadsAtMost result into.new }
        ensures bytes { ReadConsumes (Some self.old.left) (Some self.new.left) result into.new }
        ensures cause { HasCause self.old.script.faults self.new.script.faults result }
    {
        if self.script.fails() {
            return Err(Failed);
        }
        Ok(self.supply.give(self.piece, into))
    }
}

/// A sink in memory that takes pieces, with the failures of a script. It fails too, which it counts, where the room
/// that it was made with is used up.
#[derive(Drop)]
pub struct ScriptedSink {
    script: Script,
    shelf: Shelf,
    piece: usize,
}

impl Model for ScriptedSink {
    ghost use Rattle.std.specs.Prelude.{◌<◌};
    ghost use Rattle.outside_traits.specs.Memory.{ScriptedOutput};

    ghost Value = { ScriptedOutput };

    ghost view = { λ s. record { script = s.script; shelf = s.shelf; piece = s.piece } };

    ghost invariant = { λ s. 0 < s.piece };
}

impl ScriptedSink {
    /// A sink that takes at most `piece` bytes a call, and `room` bytes in all.
    pub fn new(
        alloc: Global,
        room: usize,
        piece: usize,
        script: Script,
    ) -> Result<ScriptedSink, AllocError>
        requires { 0 < piece }
        ensures script { IfOk result (λ sink. sink.script ≡ script) }
        ensures taken { IfOk result (λ sink. sink.shelf.taken ≡ []) }
        ensures room { IfOk result (λ sink. sink.shelf.room ≡ room) }
        ensures piece { IfOk result (λ sink. sink.piece ≡ piece) }
    {
        let shelf = Shelf::new(alloc, room)?;
        Ok(ScriptedSink {
            script,
            shelf,
            piece,
        })
    }

    /// What was taken.
    pub fn bytes(&self) -> &[u8]
        ensures { result.now ≡ self.now.shelf.taken }
    {
        self.shelf.bytes()
    }
}

impl Sink for ScriptedSink {
    ghost told = { λ s. record { written = Some s.shelf.taken; faults = s.script.faults } };

    fn write(&mut self, from: &[u8]) -> Result<usize, Failed>
        ensures scripted { Contains self.old.script.failing self.old.script.call → IsErr result }
        ensures full { IsErr result → Contains self.old.script.failing self.old.script.call
            ⊎ ((room_left self.old.shelf ≡ 0) × (0 < length from.now)) }
        ensures count { IfOk result
            (λ count. count ≡ min (room_left self.old.shelf) (min self.old.piece (length from.now))) }
        ensures room { self.new.shelf.room ≡ self.old.shelf.room }
        ensures script { IsNext self.old.script self.new.script }
        ensures piece { self.new.piece ≡ self.old.piece }
        ensures bound { WritesAtMost result from.now }
        ensures some { IfOk result (λ count. 0 < length from.now → 0 < count) }
        ensures bytes { WriteAppends (Some self.old.shelf.taken) (Some self.new.shelf.taken) result from.now }
        ensures cause { HasCause self.old.script.faults self.new.script.faults result }
    {
        if self.script.fails() {
            return Err(Failed);
        }
        let count = self.shelf.keep(self.piece, from);
        if count == 0 && !from.is_empty() {
            self.script.count_fault();
            return Err(Failed);
        }
        Ok(count)
    }
}

/// Files in memory, with the failures of a script. Each name is a file of the same bytes.
#[derive(Drop)]
pub struct ScriptedFiles {
    alloc: Global,
    script: Script,
    content: Vec<u8>,
    asked: Names,
}

impl Model for ScriptedFiles {
    ghost use Rattle.outside_traits.specs.Memory.{ScriptedStore};

    ghost Value = { ScriptedStore };

    ghost view = { λ f. record { script = f.script; content = f.content.items; asked = f.asked } };
}

impl ScriptedFiles {
    pub fn new(alloc: Global, content: &[u8], script: Script) -> Result<ScriptedFiles, AllocError>
        ensures script { IfOk result (λ files. files.script ≡ script) }
        ensures content { IfOk result (λ files. files.content ≡ content.now) }
        ensures asked { IfOk result (λ files. files.asked ≡ Some []) }
    {
        let content = Vec::from_slice(alloc, content)?;
        Ok(ScriptedFiles {
            alloc,
            script,
            content,
            asked: Names::new(alloc),
        })
    }

    /// The names that were asked for in order: all, where they are told.
    pub fn asked(&self) -> &[String]
        ensures { IfSome self.now.asked (λ names. map string_bytes result.now ≡ names) }
    {
        self.asked.noted()
    }
}

impl Files for ScriptedFiles {
    ghost held = { λ f _. Some f.content };

    ghost told = { λ f. record { asked = f.asked; faults = f.script.faults } };

    fn read(&mut self, name: &str, most: u64) -> Result<Vec<u8>, CallError>
        ensures scripted { IsErrOf result CallError.Failed ↔ Contains self.old.script.failing self.old.script.call }
        ensures script { IsNext self.old.script self.new.script }
        ensures most { IfOk result (λ bytes. length bytes.items ≤ most) }
        ensures bytes { IfOk result (λ bytes. bytes.items ≡ take most self.old.content) }
        ensures kept { self.new.content ≡ self.old.content }
        ensures asked { Lists self.old.asked self.new.asked (name.now ∷ []) }
        ensures cause { HasCallCause self.old.script.faults self.new.script.faults result }
    {
        let noted = self.asked.note(name);
        if self.script.fails() {
            return Err(CallError::Failed);
        }
        noted?;
        Ok(front_of(self.alloc, &self.content, most)?)
    }
}
