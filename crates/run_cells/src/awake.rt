//! Which sessions are awake.
ghost use Rattle.std.specs.Prelude.{◌≡◌, slice_get};

use std::alloc::{AllocError, Global};
use std::marker::Model;

/// The numbers of those that are awake, in rising order.
#[derive(Drop)]
pub struct Awake {
    numbers: Vec<u32>,
}

impl Model for Awake {
    ghost use Rattle.std.specs.Prelude.{List, ℕ};
    ghost use Rattle.run_cells.specs.Awake.{IsRising};

    ghost Value = { List ℕ };

    ghost view = { λ a. a.numbers.items };

    ghost invariant = { λ a. IsRising a.numbers.items };
}

impl Awake {
    ghost use Rattle.std.specs.Prelude.{◌≡◌, [], IfNone, IfSome, OnOk};
    ghost use Rattle.run_cells.specs.Awake.{HasNoneFrom, IsFirstFrom, PutsOn, TakesOff};

    /// Nobody is awake.
    pub(crate) fn new(alloc: Global) -> Awake
        ensures { result ≡ [] }
    {
        Awake {
            numbers: Vec::new(alloc),
        }
    }

    /// Wakes a session.
    pub(crate) fn wake(&mut self, session: u32) -> Result<(), AllocError>
        ensures woken { OnOk result (PutsOn session self.old self.new) }
    {
        let found = self.numbers.binary_search(&session);
        match found {
            Ok(_) => Ok(()),
            Err(place) => {
                self.numbers.insert(place, session)?;
                Ok(())
            }
        }
    }

    /// Puts a session to sleep.
    pub(crate) fn lay(&mut self, session: u32)
        ensures laid { TakesOff session self.old self.new }
    {
        let found = self.numbers.binary_search(&session);
        if let Ok(place) = found {
            self.numbers.remove(place);
        }
    }

    /// The first of those from a number on that are awake.
    pub(crate) fn first_from(&self, number: u32) -> Option<u32>
        ensures some { IfSome result (λ n. IsFirstFrom number self.now n) }
        ensures none { IfNone result (HasNoneFrom number self.now) }
    {
        let found = self.numbers.binary_search(&number);
        match found {
            Ok(_) => Some(number),
            Err(place) => number_at(self.numbers.as_slice(), place),
        }
    }
}

/// The number at a place of a list.
fn number_at(numbers: &[u32], place: usize) -> Option<u32>
    ensures { result ≡ slice_get numbers.now place }
{
    match numbers.get(place) {
        Some(number) => Some(*number),
        None => None,
    }
}
