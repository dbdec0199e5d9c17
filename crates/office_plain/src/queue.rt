use std::alloc::{AllocError, Global};
use std::collections::VecDeque;
use std::marker::Model;

/// Numbers that wait in order, which contracts see as their list.
#[derive(Drop)]
pub struct Queue {
    numbers: VecDeque<usize>,
}

impl Model for Queue {
    ghost use Rattle.std.specs.Prelude.{List, ℕ};

    ghost Value = { List ℕ };

    ghost view = { λ q. q.numbers.items };
}

impl Queue {
    ghost use Rattle.std.specs.Prelude.{◌≡◌, ◌++◌, [], ◌∷◌, drop, slice_get, OnErr, OnOk};

    pub fn new(alloc: Global) -> Queue
        ensures { result ≡ [] }
    {
        Queue {
            numbers: VecDeque::new(alloc),
        }
    }

    /// The number that waits first.
    pub fn first(&self) -> Option<usize>
        ensures { result ≡ slice_get self.now 0 }
    {
        self.numbers.front().copied()
    }

    /// Puts a number behind all others.
    pub fn push(&mut self, number: usize) -> Result<(), AllocError>
        ensures ok { OnOk result (self.new ≡ self.old ++ number ∷ []) }
        ensures err { OnErr result (self.new ≡ self.old) }
    {
        self.numbers.push_back(number)?;
        Ok(())
    }

    /// Takes out the number that waits first, if there is one.
    pub fn pass(&mut self)
        ensures { self.new ≡ drop 1 self.old }
    {
        self.numbers.pop_front();
    }
}
