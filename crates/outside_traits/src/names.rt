//! The names of the files that were asked for, in their order.
ghost use Rattle.std.specs.Prelude.{◌≡◌, [], ◌∷◌, Some, IfSome, map, string_bytes};
ghost use Rattle.outside_traits.specs.Told.{Lists};

use std::alloc::{AllocError, Global};
use std::marker::Model;

/// Names of files, which are noted for as long as there is memory for it.
#[derive(Drop)]
pub(crate) struct Names {
    alloc: Global,
    noted: Vec<String>,
    is_whole: bool,
}

impl Model for Names {
    ghost use Rattle.std.specs.Prelude.{Option, None, Some, List, ℕ, if◌then◌else◌, map, string_bytes};

    ghost Value = { Option (List (List ℕ)) };

    ghost view = { λ n. if n.is_whole then Some (map string_bytes n.noted.items) else None };
}

impl Names {
    pub(crate) fn new(alloc: Global) -> Names
        ensures { result ≡ Some [] }
    {
        Names {
            alloc,
            noted: Vec::new(alloc),
            is_whole: true,
        }
    }

    /// Notes one more name.
    pub(crate) fn note(&mut self, name: &str) -> Result<(), AllocError>
        ensures { Lists self.old self.new (name.now ∷ []) }
    {
        // They are told no more where memory is wanting.
        let is_whole = self.is_whole;
        self.is_whole = false;
        let name = String::from_str(self.alloc, name)?;
        self.noted.push(name)?;
        self.is_whole = is_whole;
        Ok(())
    }

    /// The names that were noted: all, where they are told.
    pub(crate) fn noted(&self) -> &[String]
        ensures { IfSome self.now (λ names. map string_bytes result.now ≡ names) }
    {
        self.noted.as_slice()
    }
}
