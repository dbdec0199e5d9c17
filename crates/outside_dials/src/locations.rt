//! The locations that a dialler dialled, in their order.
ghost use Rattle.std.specs.Prelude.{◌≡◌, [], Some, IfSome, map, string_bytes};
ghost use Rattle.outside_dials.specs.Dials.{Dials};

use std::alloc::{AllocError, Global};
use std::marker::Model;

/// Locations, which are noted for as long as there is memory for it.
#[derive(Drop)]
pub(crate) struct Locations {
    alloc: Global,
    noted: Vec<String>,
    is_whole: bool,
}

impl Model for Locations {
    ghost use Rattle.std.specs.Prelude.{Option, None, Some, List, ℕ, if◌then◌else◌, map, string_bytes};

    ghost Value = { Option (List (List ℕ)) };

    ghost view = { λ l. if l.is_whole then Some (map string_bytes l.noted.items) else None };
}

impl Locations {
    pub(crate) fn new(alloc: Global) -> Locations
        ensures { result ≡ Some [] }
    {
        Locations {
            alloc,
            noted: Vec::new(alloc),
            is_whole: true,
        }
    }

    /// Notes one more location.
    pub(crate) fn note(&mut self, location: &str)
        ensures { Dials self.old self.new location.now }
    {
        match String::from_str(self.alloc, location) {
            Ok(location) => self.push(location),
            Err(AllocError) => self.is_whole = false,
        }
    }

    fn push(&mut self, location: String)
        ensures { Dials self.old self.new (string_bytes location) }
    {
        if self.noted.push(location).is_err() {
            self.is_whole = false;
        }
    }

    /// The locations that were noted: all, where they are told.
    pub(crate) fn noted(&self) -> &[String]
        ensures { IfSome self.now (λ locations. map string_bytes result.now ≡ locations) }
    {
        self.noted.as_slice()
    }
}
