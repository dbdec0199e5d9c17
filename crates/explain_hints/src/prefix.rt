//! What stands before a place, made ready so that one sample after the other can be tried there.

ghost use Rattle.std.specs.Prelude.{◌≡◌, take, IfOk, IfSome, MatchBool};
ghost use Rattle.explain_hints.specs.MayStand.{tried, MayStand};
ghost use Rattle.explain_hints.specs.Short.{Placed, StandFor};

use crate::hint::Hint;
use crate::short::{short_of, short_with};
use crate::trial::{begins, may_go_on, with_sample};
use explain_places::before;
use jolie_tokens::Tokens;
use std::alloc::{AllocError, Global};
use std::marker::Model;

/// A place of a text, with few tokens that stand for those of the bytes before it, where some are found.
#[derive(Drop)]
pub(crate) struct Prefix<'a> {
    text: &'a [u8],
    at: usize,
    short: Option<Tokens>,
}

impl<'a> Model for Prefix<'a> {
    ghost use Rattle.std.specs.Prelude.{take, IfSome};
    ghost use Rattle.explain_hints.specs.Short.{Placed, StandFor};

    ghost Value = { Placed };

    ghost view = { λ p. record { text = p.text.now; at = p.at } };

    ghost invariant = { λ p. IfSome p.short (λ short. StandFor (take p.at p.text.now) short) };
}

impl<'a> Prefix<'a> {
    pub fn new(alloc: Global, text: &'a [u8], at: usize) -> Result<Prefix<'a>, AllocError>
        ensures { IfOk result (λ prefix. prefix ≡ record { text = text.now; at = at }) }
    {
        let short = short_of(alloc, before(text, at))?;
        Ok(Prefix { text, at, short })
    }

    /// Tokens that stand for those of the bytes with a sample after them, where some are found.
    fn short_with(&self, alloc: Global, sample: &str) -> Result<Option<Tokens>, AllocError>
        ensures { IfOk result (λ short. IfSome short
            (λ tokens. StandFor (tried self.now.text self.now.at sample.now) tokens)) }
    {
        match &self.short {
            Some(short) => short_with(alloc, before(self.text, self.at), short.as_slice(), sample),
            None => Ok(None),
        }
    }

    /// Whether a hint may stand at the place.
    pub fn may_stand(&self, alloc: Global, hint: Hint) -> Result<bool, AllocError>
        ensures { IfOk result (λ may. MatchBool may (MayStand self.now.text self.now.at hint)
            (MayStand self.now.text self.now.at hint → ⊥)) }
    {
        let bytes = with_sample(alloc, before(self.text, self.at), hint.sample())?;
        match self.short_with(alloc, hint.sample())? {
            Some(short) => begins(alloc, bytes.as_slice(), short.as_slice()),
            None => may_go_on(alloc, bytes.as_slice()),
        }
    }
}
