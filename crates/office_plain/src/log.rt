ghost use Rattle.std.specs.Prelude.{◌≡◌, ◌+◌, ◌≤◌, ◌<◌, ◌++◌, [], ◌∷◌, IfOk, OnOk, OnErr};
ghost use Rattle.std.specs.Vec.{vec_len, vec_capacity};

use office_core::{Entry, History};
use std::alloc::{AllocError, Global};

/// The history, with room for some entries that are always taken.
#[derive(Drop)]
pub struct Log {
    history: History,
    kept: u32,
    pub ghost room: { vec_len history.entries + kept ≤ vec_capacity history.entries },
}

impl Log {
    ghost use Rattle.office_plain.specs.Logs.{entries_of, HasRoom};

    /// A history without an entry, with room for some.
    pub fn new(alloc: Global, kept: u32) -> Result<Log, AllocError>
        ensures entries { IfOk result (λ log. entries_of log ≡ []) }
        ensures kept { IfOk result (λ log. log.kept ≡ kept) }
    {
        Ok(Log {
            history: History {
                entries: Vec::with_capacity(alloc, kept as usize)?,
            },
            kept,
        })
    }

    pub fn history(&self) -> &History
        ensures { result.now.entries.items ≡ entries_of self.now }
    {
        &self.history
    }

    /// The history in the end.
    pub fn into_history(self) -> History
        ensures { result.entries.items ≡ entries_of self }
    {
        self.history
    }

    /// For how many entries room is kept.
    pub fn places(&self) -> u32
        ensures { result ≡ self.now.kept }
    {
        self.kept
    }

    /// Makes room for one entry more.
    pub fn reserve(&mut self) -> Result<(), AllocError>
        ensures room { OnOk result (HasRoom self.new) }
        ensures entries { entries_of self.new ≡ entries_of self.old }
        ensures kept { self.new.kept ≡ self.old.kept }
    {
        self.history.entries.reserve(self.kept as usize + 1)
    }

    /// Adds an entry for which there is room.
    pub fn put(&mut self, entry: Entry)
        requires { HasRoom self.old }
        ensures entries { entries_of self.new ≡ entries_of self.old ++ entry ∷ [] }
        ensures kept { self.new.kept ≡ self.old.kept }
    {
        self.history.entries.push_reserved(entry);
    }

    /// Adds an entry in a place that was kept.
    pub fn put_kept(&mut self, entry: Entry)
        requires { 0 < self.old.kept }
        ensures entries { entries_of self.new ≡ entries_of self.old ++ entry ∷ [] }
        ensures kept { self.new.kept + 1 ≡ self.old.kept }
    {
        self.history.entries.push_reserved(entry);
        self.kept -= 1;
    }
}
