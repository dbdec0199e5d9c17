ghost use Rattle.std.specs.Prelude.{◌≡◌, [], ◌∷◌, ◌++◌, ◌<◌, IfOk, IfSome, OnErr, OnOk, length, map};
ghost use Rattle.behaviour_tree.specs.Distinct.{is_in};
ghost use Rattle.check_base.specs.Repeated.{place_of};

use std::alloc::{AllocError, Global};
use std::collections::BTreeMap;
use std::marker::Model;

/// Texts in their order, each found by an ordered look-up at the place where it first stands.
#[derive(Drop)]
pub struct Names<'a> {
    texts: Vec<&'a str>,
    places: BTreeMap<&'a str, usize>,
}

impl<'a> Model for Names<'a> {
    ghost use Rattle.std.specs.Prelude.{◌≡◌, List, ℕ, map};
    ghost use Rattle.std.specs.BTreeMap.{get_by};
    ghost use Rattle.std.specs.Cmp.Lexicographic.{slice_cmp};
    ghost use Rattle.std.specs.Ordering.{nat_cmp};
    ghost use Rattle.check_base.specs.Repeated.{place_of};

    ghost Value = { List (List ℕ) };

    ghost view = { λ n. map (λ t. t.now) n.texts.items };

    ghost invariant = { λ n. (q : List ℕ) → get_by (λ k. slice_cmp nat_cmp q k.now) n.places ≡ place_of (map (λ t. t.now) n.texts.items) q };
}

impl<'a> Names<'a> {
    pub fn new(alloc: Global) -> Names<'a>
        ensures { result ≡ [] }
    {
        Names {
            texts: Vec::new(alloc),
            places: BTreeMap::new(alloc),
        }
    }

    pub fn len(&self) -> usize
        ensures { result ≡ length self.now }
    {
        self.texts.len()
    }

    pub fn texts(&self) -> &[&'a str]
        ensures { map (λ t. t.now) result.now ≡ self.now }
    {
        self.texts.as_slice()
    }

    /// The place where a text first stands.
    pub fn place(&self, text: &str) -> Option<usize>
        ensures place { result ≡ place_of self.now text.now }
        ensures within { IfSome result (λ place. place < length self.now) }
    {
        self.places.get(text).copied()
    }

    #[tactic(auto, using(crate::proofs::Lookups::place_is_in))]
    pub fn has(&self, text: &str) -> bool
        ensures { result ≡ is_in text.now self.now }
    {
        self.place(text).is_some()
    }

    /// Adds a text after the others, and says whether it was there.
    pub fn add(&mut self, text: &'a str) -> Result<bool, AllocError>
        ensures added { OnOk result (self.new ≡ self.old ++ text.now ∷ []) }
        ensures kept { OnErr result (self.new ≡ self.old) }
        ensures known { IfOk result (λ known. known ≡ is_in text.now self.old) }
    {
        let known = self.has(text);
        let place = self.texts.len();
        self.texts.push(text)?;
        if !known {
            if let Err(failed) = self.places.insert(text, place) {
                self.texts.pop();
                return Err(failed.into());
            }
        }
        Ok(known)
    }
}
