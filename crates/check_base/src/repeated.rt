ghost use Rattle.std.specs.Prelude.{◌≡◌, OnOk};
ghost use Rattle.check_base.specs.declared.refusal.CheckName.TheVariants.{DuplicateName};
ghost use Rattle.check_base.specs.Least.{joined, refused};
ghost use Rattle.check_base.specs.Repeated.{as_name, named, repeated};

use crate::least::Least;
use crate::names::Names;
use crate::refusal::CheckName;
use jolie_ast::{Name, Quoted};
use std::alloc::{AllocError, Global};
use std::marker::Model;

/// A text and its place.
#[derive(Drop)]
pub struct Mention<'a> {
    text: &'a str,
    at: u32,
}

impl<'a> Model for Mention<'a> {
    ghost use Rattle.std.specs.Coded.{codes};
    ghost use Rattle.jolie_ast.specs.contracts.name.Name as name;
    ghost use Rattle.jolie_ast.specs.declared.name.Name.{Name};
    ghost use Rattle.check_base.specs.Repeated.{named};

    ghost Value = { Name };

    ghost coded = { Prim.hlevel (codes, name.the_row.coded) };

    ghost view = { λ m. named m.text.now m.at };
}

impl<'a> Mention<'a> {
    pub fn new(text: &'a str, at: u32) -> Mention<'a>
        ensures { result ≡ named text.now at }
    {
        Mention { text, at }
    }

    pub fn name(name: &'a Name) -> Mention<'a>
        ensures { result ≡ name.now }
    {
        Mention::new(name.text.as_str(), name.at)
    }

    pub fn quoted(quoted: &'a Quoted) -> Mention<'a>
        ensures { result ≡ as_name quoted.now }
    {
        Mention::new(quoted.text.as_str(), quoted.at)
    }

    fn text(&self) -> &'a str
        ensures { result.now ≡ self.now.text }
    {
        self.text
    }

    fn at(&self) -> u32
        ensures { result ≡ self.now.at }
    {
        self.at
    }
}

/// Refuses each name that stands a second time as a duplicate.
pub fn repeated_refused(
    alloc: Global,
    mentions: &[Mention],
    least: &mut Least,
) -> Result<(), AllocError>
    ensures { OnOk result (least.new ≡ joined least.old (refused DuplicateName (repeated mentions.now))) }
{
    repeated_refused_as(alloc, CheckName::DuplicateName, mentions, least)
}

/// Refuses each name that stands a second time, for this cause.
pub fn repeated_refused_as(
    alloc: Global,
    cause: CheckName,
    mentions: &[Mention],
    least: &mut Least,
) -> Result<(), AllocError>
    ensures { OnOk result (least.new ≡ joined least.old (refused cause (repeated mentions.now))) }
{
    let mut names = Names::new(alloc);
    for mention in mentions {
        let known = names.add(mention.text())?;
        least.offer_if(known, cause, mention.at());
    }
    Ok(())
}
