ghost use Rattle.std.specs.Prelude.{◌≡◌, IfOk, IsUtf8};
ghost use Rattle.jolie_parse.specs.Classes as spec;
ghost use Rattle.jolie_parse.specs.Meanings as means_as;

use crate::class::Class;
use crate::word::Word;
use jolie_ast::{Name, Quoted};
use jolie_tokens::{Token, TokenKind};
use jolie_trees::Text;
use std::alloc::{AllocError, Global};
use std::marker::Model;

/// A token with the bytes that it is written in.
#[derive(Drop)]
pub struct Taken<'a> {
    token: &'a Token,
    spelling: &'a [u8],
}

impl<'a> Model for Taken<'a> {
    ghost use Rattle.std.specs.Prelude.{IsUtf8};
    ghost use Rattle.jolie_parse.specs.Classes.{Spelled};

    ghost Value = { Spelled };

    ghost view = { λ t. record { token = t.token.now; spelling = t.spelling.now } };

    ghost invariant = { λ t. IsUtf8 t.spelling.now };
}

impl<'a> Taken<'a> {
    pub fn new(token: &'a Token, spelling: &'a [u8]) -> Taken<'a>
        requires { IsUtf8 spelling.now }
        ensures { result ≡ record { token = token.now; spelling = spelling.now } }
    {
        Taken { token, spelling }
    }

    /// Where the token begins.
    pub fn at(&self) -> u32
        ensures { result ≡ spec.place self.now }
    {
        self.token.at
    }

    pub fn class(&self) -> Class
        ensures { result ≡ spec.class self.now }
    {
        match &self.token.kind {
            TokenKind::Word => Class::Word(Word::of(self.spelling)),
            TokenKind::Int(_) => Class::Int,
            TokenKind::Long(_) => Class::Long,
            TokenKind::Str(_) => Class::Str,
            TokenKind::Sign(sign) => Class::Sign(*sign),
        }
    }

    /// Whether it is that word.
    pub fn is(&self, word: Word) -> bool
        ensures { result ≡ spec.same (spec.class self.now) (Class.Word word) }
    {
        self.class().is(Class::Word(word))
    }

    /// The word, with its place.
    pub fn name(&self, alloc: Global) -> Result<Name, AllocError>
        ensures { IfOk result (λ name. name ≡ means_as.name_of self.now) }
    {
        let text = String::from_utf8_lossy(alloc, self.spelling)?;
        Ok(Name {
            text: Text::from_string(text),
            at: self.token.at,
        })
    }

    /// The value of an int; no other token has one.
    pub fn int(&self) -> i32
        ensures { result ≡ means_as.int_value self.now }
    {
        match &self.token.kind {
            TokenKind::Int(value) => *value,
            _ => 0,
        }
    }

    /// The value of a long; no other token has one.
    pub fn long(&self) -> i64
        ensures { result ≡ means_as.long_value self.now }
    {
        match &self.token.kind {
            TokenKind::Long(value) => *value,
            _ => 0,
        }
    }

    /// What a string means; no other token means a text.
    pub fn text(&self, alloc: Global) -> Result<Text, AllocError>
        ensures { IfOk result (λ text. text ≡ means_as.meant_text self.now) }
    {
        match &self.token.kind {
            TokenKind::Str(text) => text.copied(),
            _ => Text::new(alloc, ""),
        }
    }

    /// A string, with its place.
    pub fn quoted(&self, alloc: Global) -> Result<Quoted, AllocError>
        ensures { IfOk result (λ quoted. quoted ≡ means_as.quoted self.now) }
    {
        Ok(Quoted {
            text: self.text(alloc)?,
            at: self.token.at,
        })
    }
}
