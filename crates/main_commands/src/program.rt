//! The program as the parser has it, from the table of the commands.

ghost use Rattle.std.specs.Prelude.{◌≡◌, IfOk, false, map};
ghost use Rattle.clap.specs.Words.{app_of, rule_of};
ghost use Rattle.clap.specs.declared.builder.Command.TheViews.{out-Command as fields_of};
ghost use Rattle.main_commands.specs.Rows.{command_words, operand_words, option_words};
ghost use Rattle.main_commands.specs.Grammar.{bare_program, command_app, operand_rule, option_rule, parser_of, program};
ghost use Rattle.main_commands.specs.Grammar.{with_commands, with_rules};

use crate::status::MEANINGS;
use crate::table::{COMMANDS, CommandRow, OperandRow, OptionRow, Takes};
use clap::builder::ValueParser;
use clap::{Arg, Command};
use std::alloc::{AllocError, Global};

/// The version of the program.
const VERSION: &str = "0.1.0";

/// The program with its commands.
pub fn program<'a>(alloc: Global) -> Result<Command<'a>, AllocError>
    ensures { IfOk result (λ command. app_of command ≡ program) }
{
    with_commands(alloc, bare_program(alloc)?, &COMMANDS)
}

/// The program without its commands.
fn bare_program<'a>(alloc: Global) -> Result<Command<'a>, AllocError>
    ensures { IfOk result (λ command. app_of command ≡ bare_program) }
{
    Command::new(alloc, "roqsulei")
        .version(VERSION)
        .about("Checks, prints, runs and serves services written in Jolie")
        .after_help(MEANINGS)
        .no_binary_name(true)
        .subcommand_required(true)
        .arg_required_else_help(true)
        .bin_name("roqsulei")
}

fn with_commands<'a>(
    alloc: Global,
    program: Command<'a>,
    rows: &[CommandRow],
) -> Result<Command<'a>, AllocError>
    ensures { IfOk result
        (λ command. app_of command ≡ with_commands (app_of program.entry) (map command_words rows.now)) }
{
    let mut program = program;
    for row in rows {
        program = program.subcommand(command(alloc, row)?)?;
    }
    Ok(program)
}

fn command<'a>(alloc: Global, row: &CommandRow) -> Result<Command<'a>, AllocError>
    ensures shape { IfOk result (λ command. app_of command ≡ command_app (command_words row.now)) }
    ensures local { IfOk result (λ command. (fields_of command).has_globals ≡ false) }
{
    let command = Command::new(alloc, row.name).about(row.about);
    let command = with_operands(alloc, command, row.operands)?;
    with_options(alloc, command, row.options)
}

fn with_operands<'a>(
    alloc: Global,
    command: Command<'a>,
    rows: &[OperandRow],
) -> Result<Command<'a>, AllocError>
    ensures shape { IfOk result
        (λ made. app_of made ≡ with_rules (app_of command.entry) (map operand_rule (map operand_words rows.now))) }
    ensures local { (fields_of command.entry).has_globals ≡ false
        → IfOk result (λ made. (fields_of made).has_globals ≡ false) }
{
    let mut command = command;
    for row in rows {
        command = command.arg(operand(alloc, row))?;
    }
    Ok(command)
}

fn operand<'a>(alloc: Global, row: &OperandRow) -> Arg<'a>
    ensures rule { rule_of result ≡ operand_rule (operand_words row.now) }
    ensures local { result.global ≡ false }
{
    let arg = Arg::new(alloc, "operand")
        .value_name(row.name)
        .required(true)
        .help(row.help);
    arg.value_parser(parser_of(row.takes))
}

fn with_options<'a>(
    alloc: Global,
    command: Command<'a>,
    rows: &[OptionRow],
) -> Result<Command<'a>, AllocError>
    ensures shape { IfOk result
        (λ made. app_of made ≡ with_rules (app_of command.entry) (map option_rule (map option_words rows.now))) }
    ensures local { (fields_of command.entry).has_globals ≡ false
        → IfOk result (λ made. (fields_of made).has_globals ≡ false) }
{
    let mut command = command;
    for row in rows {
        command = command.arg(option(alloc, row))?;
    }
    Ok(command)
}

fn option<'a>(alloc: Global, row: &OptionRow) -> Arg<'a>
    ensures rule { rule_of result ≡ option_rule (option_words row.now) }
    ensures local { result.global ≡ false }
{
    let arg = Arg::new(alloc, row.name).long(row.name).help(row.help);
    let arg = arg.value_name(match row.takes {
        Takes::Number { .. } => "N",
        Takes::Text => "LIST",
    });
    arg.value_parser(parser_of(row.takes))
}

/// Which values are let through.
fn parser_of<'a>(takes: Takes) -> ValueParser<'a>
    ensures { result ≡ parser_of takes }
{
    match takes {
        Takes::Number { least, most } => ValueParser::Unsigned(least, most),
        Takes::Text => ValueParser::String,
    }
}
