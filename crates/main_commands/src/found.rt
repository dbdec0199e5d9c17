//! What the parser found, as words that were understood.

ghost use Rattle.std.specs.Prelude.{◌≡◌, IfOk, codes, map, option_map};
ghost use Rattle.clap.specs.Words.{first_of, found_of, rows_of, subcommand_rows_of};
ghost use Rattle.main_commands.specs.Rows.{command_words};
ghost use Rattle.main_commands.specs.Usage.{asked_in, file_words, number_by, operand_in, picks_by, said_by, values_in};
ghost use Rattle.main_commands.specs.Usage.{verb_in, verb_of};

use crate::numbers::{MOST_CONNECTIONS, MOST_EVENTS, MOST_LINES, number_of, picks_of};
use crate::table::{Action, COMMANDS, CommandRow, Verb};
use crate::words::{Command, Words};
use clap::ArgMatches;
use jolie_trees::Text;
use sqlite_items::Items;
use std::alloc::{AllocError, Global};

/// What is said of picks that are no list.
const NO_LIST: &str = "error: --picks takes numbers from 0 to 4294967295 with commas between\n";

/// What the command says that the parser entered: the command, or that its LIST is none.
pub fn words_found(alloc: Global, matches: &ArgMatches<'_>) -> Result<Option<Words>, AllocError>
    ensures { IfOk result (λ found. found ≡ option_map said_by (asked_in (subcommand_rows_of matches.now))) }
{
    let Some((name, given)) = matches.subcommand() else {
        return Ok(None);
    };
    let Some(verb) = verb_called(name) else {
        return Ok(None);
    };
    let Some(operand) = operand_given(given) else {
        return Ok(None);
    };
    let Some(action) = verb.action() else {
        return Ok(Some(Words::Load(number_of(operand, 0, MOST_LINES))));
    };
    Ok(Some(file_words(alloc, action, operand, given)?))
}

/// What is said of a command over a file: the command, or that its LIST is none.
fn file_words(
    alloc: Global,
    action: Action,
    file: &str,
    given: &ArgMatches<'_>,
) -> Result<Words, AllocError>
    ensures { IfOk result
        (λ words. words ≡ file_words action file.now (values_in (rows_of (found_of given.now)))) }
{
    let Some(picks) = picks_given(alloc, given)? else {
        return Ok(Words::UsageError(Text::new(alloc, NO_LIST)?));
    };
    let budget = number_given(given, "budget", MOST_EVENTS);
    let connections = number_given(given, "connections", MOST_CONNECTIONS);
    let file = Text::new(alloc, file)?;
    Ok(Words::Command(Command {
        action,
        file,
        budget,
        picks,
        connections,
    }))
}

#[tactic(auto, using(crate::proofs::AmongMatches::value_found))]
fn operand_given<'a>(given: &ArgMatches<'a>) -> Option<&'a str>
    ensures { option_map (λ operand. operand.now) result ≡ operand_in (rows_of (found_of given.now)) }
{
    given.get_str("operand")
}

/// The number that the option of that name was given, or the most.
fn number_given(given: &ArgMatches<'_>, name: &str, most: u32) -> u32
    ensures { result ≡ number_by most (first_of name.now (rows_of (found_of given.now))) }
{
    match given.get_str(name) {
        Some(text) => number_of(text, 1, most),
        None => most,
    }
}

/// The picks, where the LIST is one.
fn picks_given(alloc: Global, given: &ArgMatches<'_>) -> Result<Option<Items<u32>>, AllocError>
    ensures { IfOk result (λ picks. picks ≡ picks_by (first_of (codes "picks") (rows_of (found_of given.now)))) }
{
    match given.get_str("picks") {
        Some(list) => picks_of(alloc, list),
        None => Ok(Some(Items::new(alloc))),
    }
}

/// What that name asks for in the table.
fn verb_called(name: &str) -> Option<Verb>
    ensures { result ≡ verb_of name.now }
{
    verb_in(&COMMANDS, name)
}

/// What that name asks for among rows.
fn verb_in(rows: &[CommandRow], name: &str) -> Option<Verb>
    ensures { result ≡ verb_in (map command_words rows.now) name.now }
{
    for row in rows {
        if row.name == name {
            return Some(row.verb);
        }
    }
    None
}
