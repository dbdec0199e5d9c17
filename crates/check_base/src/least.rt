ghost use Rattle.std.specs.Prelude.{◌≡◌, [], ◌∷◌, None};
ghost use Rattle.check_base.specs.Least.{joined, refusal, refused_if};

use crate::refusal::{CheckName, Refusal};
use std::marker::Model;

/// What is refused first so far: the refusal of the least place, at a tie that of the first name.
#[derive(Drop)]
pub struct Least {
    first: Option<Refusal>,
}

impl Model for Least {
    ghost use Rattle.std.specs.Prelude.{Option};
    ghost use Rattle.check_base.specs.declared.refusal.Refusal.{Refusal};

    ghost Value = { Option Refusal };

    ghost view = { λ l. l.first };
}

impl Least {
    /// Nothing is refused yet.
    pub fn new() -> Least
        ensures { result ≡ None }
    {
        Least { first: None }
    }

    pub fn first(&self) -> Option<Refusal>
        ensures { result ≡ self.now }
    {
        self.first
    }

    pub fn offer(&mut self, name: CheckName, at: u32)
        ensures { self.new ≡ joined self.old (refusal name at ∷ []) }
    {
        let offered = Refusal { name, at };
        let keeps = match self.first {
            Some(first) => first.comes_first(offered),
            None => false,
        };
        if !keeps {
            self.first = Some(offered);
        }
    }

    /// Offers a refusal where something holds.
    pub fn offer_if(&mut self, holds: bool, name: CheckName, at: u32)
        ensures { self.new ≡ joined self.old (refused_if holds name at) }
    {
        if holds {
            self.offer(name, at);
        }
    }
}
