//! What is understood of the words of the command line.

ghost use Rattle.std.specs.Prelude.{◌≡◌, ◌≢◌, IfOk, IsSome, []};
ghost use Rattle.clap.specs.Words.{FailsBy, fault_of, kind_of, subcommand_of, subcommand_rows_of};
ghost use Rattle.main_commands.specs.Grammar.{program};
ghost use Rattle.main_commands.specs.Said.{IsFound, IsToldOf};
ghost use Rattle.main_commands.specs.Usage.{IsPlainly, IsUnderstood, asked_in, spelled};

use crate::found::words_found;
use crate::program::program;
use crate::table::Action;
use clap::error::ErrorKind;
use clap::{ArgMatches, Error};
use jolie_trees::Text;
use sqlite_items::Items;
use std::alloc::{AllocError, Global};

/// A command and its FILE; how many events a session may have, where the turns of a run begin to look, and how many
/// connections a service that is served accepts.
#[derive(Debug, Drop)]
pub struct Command {
    pub action: Action,
    pub file: Text,
    pub budget: u32,
    pub picks: Items<u32>,
    pub connections: u32,
}

/// What the words of the command line say.
#[derive(Debug, Drop)]
pub enum Words {
    Command(Command),
    /// A load of so many lines.
    Load(u32),
    /// A text of help, or of the version.
    Help(Text),
    /// What is wrong with the words.
    UsageError(Text),
}

/// What the words after the program's name say.
pub fn understood(alloc: Global, words: &[String]) -> Result<Words, AllocError>
    ensures understood { IfOk result (λ said. IsUnderstood (spelled words.now) said) }
    ensures plainly { IfOk result (λ said. IsPlainly (spelled words.now) said) }
{
    match parsed(alloc, words) {
        Ok(matches) => entered(alloc, &matches),
        Err(error) => told(alloc, &error),
    }
}

fn parsed<'a>(alloc: Global, words: &'a [String]) -> Result<ArgMatches<'a>, Error>
    ensures entered { IfOk result
        (λ matches. subcommand_rows_of matches ≡ subcommand_of program (spelled words.now)) }
    ensures kinds { FailsBy (fault_of program (spelled words.now)) result }
{
    let program = program(alloc)?;
    program.try_get_matches_from(words)
}

/// What the command says that the parser entered.
fn entered(alloc: Global, matches: &ArgMatches<'_>) -> Result<Words, AllocError>
    requires { IsSome (asked_in (subcommand_rows_of matches.now)) }
    ensures { IfOk result (IsFound (asked_in (subcommand_rows_of matches.now))) }
{
    match words_found(alloc, matches)? {
        Some(words) => Ok(words),
        None => unreachable!(),
    }
}

/// What is said of an error of the parser.
fn told(alloc: Global, error: &Error) -> Result<Words, AllocError>
    ensures { IfOk result (IsToldOf (kind_of error.now)) }
{
    match error.kind() {
        ErrorKind::OutOfMemory => Err(AllocError),
        ErrorKind::DisplayHelp => Ok(Words::Help(text_of(alloc, error)?)),
        ErrorKind::DisplayVersion => Ok(Words::Help(text_of(alloc, error)?)),
        _ => Ok(Words::UsageError(text_of(alloc, error)?)),
    }
}

/// The text of an error, as the parser has it.
fn text_of(alloc: Global, error: &Error) -> Result<Text, AllocError> {
    Ok(Text::from_string(error.to_string(alloc)?))
}
