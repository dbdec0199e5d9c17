ghost use Rattle.std.specs.Prelude.{◌≡◌, ◌≤◌, true};
ghost use Rattle.jolie_ast.specs.Formed.{is_formed};
ghost use Rattle.jolie_ast.specs.Members.{parallel_members, most_members};

use crate::interface::Interface;
use crate::service::Service;
use crate::types::TypeDefinition;
use sqlite_items::Items;
use std::marker::Model;

/// What a file defines.
#[derive(Drop)]
pub enum Definition {
    Type(TypeDefinition),
    Interface(Interface),
    Service(Service),
}

/// The tree of a file: its definitions in the order of the text. Each member of a parallel has a token of its own in
/// the text, so that the parallels of a tree have no more members in all than a text may have bytes. A sequence, a
/// parallel, an `And` and an `Or` have two members at least, since one alone is itself, and a choice has a branch at
/// least.
#[derive(Drop)]
pub struct Ast {
    definitions: Items<Definition>,
}

impl Model for Ast {
    ghost use Rattle.std.specs.Prelude.{◌≡◌, ◌≤◌, List, true};
    ghost use Rattle.std.specs.Coded.{codes};
    ghost use Rattle.jolie_ast.specs.contracts.tree.Definition as definition;
    ghost use Rattle.jolie_ast.specs.declared.tree.Definition.{Definition};
    ghost use Rattle.jolie_ast.specs.Formed.{is_formed};
    ghost use Rattle.jolie_ast.specs.Members.{parallel_members, most_members};

    ghost Value = { List Definition };

    ghost coded = { Prim.hlevel (codes, definition.the_row.coded) };

    ghost view = { λ a. a.definitions };

    ghost invariant = { λ a. (parallel_members a.definitions ≤ most_members) × (is_formed a.definitions ≡ true) };
}

impl Ast {
    pub fn new(definitions: Items<Definition>) -> Ast
        requires bound { parallel_members definitions ≤ most_members }
        requires formed { is_formed definitions ≡ true }
        ensures { result ≡ definitions }
    {
        Ast { definitions }
    }

    pub fn definitions(&self) -> &[Definition]
        ensures value { result.now ≡ self.now }
        ensures bound { parallel_members self.now ≤ most_members }
        ensures formed { is_formed self.now ≡ true }
    {
        self.definitions.as_slice()
    }
}
