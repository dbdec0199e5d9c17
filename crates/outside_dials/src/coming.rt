//! What comes out in order.
ghost use Rattle.std.specs.Prelude.{◌≡◌, [], ◌∷◌, MatchOption};

use std::marker::Model;
use std::vec::IntoIter;

/// What is to come, in order.
#[derive(Drop)]
pub(crate) struct Coming<T> {
    left: IntoIter<T>,
}

impl<T> Model for Coming<T> {
    ghost use Rattle.std.specs.Prelude.{◌≡◌, List, length};
    ghost use Rattle.std.specs.Vec.Iter.{into_iter_items, into_iter_len};

    ghost Value = { List T };

    ghost view = { λ c. into_iter_items c.left };

    ghost invariant = { λ c. into_iter_len c.left ≡ length (into_iter_items c.left) };
}

impl<T> Coming<T> {
    pub(crate) fn new(items: Vec<T>) -> Coming<T>
        ensures { result ≡ items.items }
    {
        Coming {
            left: items.into_iter(),
        }
    }

    /// The next of it, none where all came.
    pub(crate) fn next(&mut self) -> Option<T>
        ensures { MatchOption result ((self.old ≡ []) × (self.new ≡ [])) (λ item. self.old ≡ item ∷ self.new) }
    {
        self.left.next()
    }
}
