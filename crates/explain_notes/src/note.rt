ghost use Rattle.std.specs.Prelude.{◌≡◌};
ghost use Rattle.explain_notes.specs.Notes.{note};

use crate::kind::NoteKind;
use crate::list::Mention;
use std::marker::Model;

/// What is noted of a name where it stands.
#[derive(Drop)]
pub struct Note<'a> {
    kind: NoteKind,
    at: u32,
    text: &'a str,
}

impl<'a> Model for Note<'a> {
    ghost use Rattle.std.specs.Coded.{codes};
    ghost use Rattle.jolie_ast.specs.contracts.name.Name as name;
    ghost use Rattle.explain_notes.specs.Mentions.{word};
    ghost use Rattle.explain_notes.specs.Notes.{Noted, note};

    ghost Value = { Noted };

    ghost coded = { Prim.hlevel (codes, name.the_row.coded) };

    ghost view = { λ n. note n.kind (word n.at n.text.now) };
}

impl<'a> Note<'a> {
    pub fn new(kind: NoteKind, mention: &Mention<'a>) -> Note<'a>
        ensures { result ≡ note kind mention.now.name }
    {
        Note {
            kind,
            at: mention.at(),
            text: mention.text(),
        }
    }

    pub fn kind(&self) -> NoteKind
        ensures { result ≡ self.now.kind }
    {
        self.kind
    }

    /// The text of the name.
    pub fn text(&self) -> &'a str
        ensures { result.now ≡ self.now.name.text }
    {
        self.text
    }

    /// The place of the name in the file.
    pub fn at(&self) -> u32
        ensures { result ≡ self.now.name.at }
    {
        self.at
    }
}
