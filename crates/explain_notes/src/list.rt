ghost use Rattle.std.specs.Prelude.{◌≡◌, [], ◌∷◌, ◌++◌, OnOk};
ghost use Rattle.explain_notes.specs.Mentions.{mention, word};

use crate::role::Role;
use jolie_ast::Name;
use std::alloc::{AllocError, Global};
use std::marker::Model;

/// A name where it stands, and what is done with it.
#[derive(Drop)]
pub struct Mention<'a> {
    role: Role,
    at: u32,
    text: &'a str,
}

impl<'a> Model for Mention<'a> {
    ghost use Rattle.std.specs.Coded.{codes};
    ghost use Rattle.jolie_ast.specs.contracts.name.Name as name;
    ghost use Rattle.explain_notes.specs.Mentions.{Mentioned, mention, word};

    ghost Value = { Mentioned };

    ghost coded = { Prim.hlevel (codes, name.the_row.coded) };

    ghost view = { λ m. mention m.role (word m.at m.text.now) };
}

impl<'a> Mention<'a> {
    fn new(role: Role, at: u32, text: &'a str) -> Mention<'a>
        ensures { result ≡ mention role (word at text.now) }
    {
        Mention { role, at, text }
    }

    pub fn role(&self) -> Role
        ensures { result ≡ self.now.role }
    {
        self.role
    }

    /// The place of the name.
    pub fn at(&self) -> u32
        ensures { result ≡ self.now.name.at }
    {
        self.at
    }

    /// The text of the name.
    pub fn text(&self) -> &'a str
        ensures { result.now ≡ self.now.name.text }
    {
        self.text
    }
}

/// Mentions in order, as `mentions_of` has it.
#[derive(Drop)]
pub struct Mentions<'a> {
    alloc: Global,
    list: Vec<Mention<'a>>,
}

impl<'a> Model for Mentions<'a> {
    ghost use Rattle.std.specs.Coded.{codes};
    ghost use Rattle.jolie_ast.specs.contracts.name.Name as word;
    ghost use Rattle.explain_notes.specs.Mentions.{Seen};

    ghost Value = { Seen };

    ghost coded = { Prim.hlevel (codes, word.the_row.coded) };

    ghost view = { λ m. m.list.items };
}

impl<'a> Mentions<'a> {
    pub(crate) fn new(alloc: Global) -> Mentions<'a>
        ensures { result ≡ [] }
    {
        Mentions {
            alloc,
            list: Vec::new(alloc),
        }
    }

    /// No mentions, for what stands inside of something.
    pub(crate) fn inner(&self) -> Mentions<'a>
        ensures { result ≡ [] }
    {
        Mentions::new(self.alloc)
    }

    pub(crate) fn alloc(&self) -> Global {
        self.alloc
    }

    pub fn as_slice(&self) -> &[Mention<'a>]
        ensures { result.now ≡ self.now }
    {
        self.list.as_slice()
    }

    /// Adds a mention of a text at a place after the others.
    pub(crate) fn put(&mut self, role: Role, at: u32, text: &'a str) -> Result<(), AllocError>
        ensures { OnOk result (self.new ≡ self.old ++ mention role (word at text.now) ∷ []) }
    {
        self.list.push(Mention::new(role, at, text))?;
        Ok(())
    }

    /// Adds a mention of a name.
    pub(crate) fn add(&mut self, role: Role, name: &'a Name) -> Result<(), AllocError>
        ensures { OnOk result (self.new ≡ self.old ++ mention role name.now ∷ []) }
    {
        self.put(role, name.at, name.text.as_str())
    }

    /// Adds what is mentioned elsewhere, in this role.
    pub(crate) fn again(&mut self, role: Role, other: &Mention<'a>) -> Result<(), AllocError>
        ensures { OnOk result (self.new ≡ self.old ++ mention role other.now.name ∷ []) }
    {
        self.put(role, other.at(), other.text())
    }
}
