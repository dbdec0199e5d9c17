//! What words ask for.

use main_commands::{Action, Command, Words, understood};
use std::alloc::{AllocError, Global};
use test_rows::Row;

/// What the words of a row ask for.
pub fn asked(alloc: Global, row: &Row<'_>) -> anyhow::Result<String> {
    let words = words(alloc, row)?;
    Ok(said_words(alloc, &understood(alloc, words.as_slice())?)?)
}

/// What the words of a row are refused by.
pub fn refused_by(alloc: Global, row: &Row<'_>) -> anyhow::Result<String> {
    let words = words(alloc, row)?;
    Ok(refusal_words(alloc, &understood(alloc, words.as_slice())?)?)
}

/// The words of a row, one a line; a row without any has an empty text.
fn words(alloc: Global, row: &Row<'_>) -> anyhow::Result<Vec<String>> {
    let text = row.text(alloc, "words")?;
    let mut words = Vec::new(alloc);
    if text.is_empty() {
        return Ok(words);
    }
    for word in text.split('\n') {
        words.push(String::from_str(alloc, word)?)?;
    }
    Ok(words)
}

fn said_words(alloc: Global, said: &Words) -> Result<String, AllocError> {
    match said {
        Words::Command(command) => shown_command(alloc, command),
        Words::Load(lines) => format!(in alloc; "Load {lines}"),
        Words::Help(text) => format!(in alloc; "told: {}", text.as_str()),
        Words::UsageError(text) => format!(in alloc; "refused: {}", text.as_str()),
    }
}

fn shown_command(alloc: Global, command: &Command) -> Result<String, AllocError> {
    let action = command.action;
    let mut shown = format!(in alloc; "{action:?} {}", command.file.as_str())?;
    let options = match action {
        Action::Run => shown_run(alloc, command)?,
        Action::Serve => shown_served(alloc, command)?,
        Action::Check | Action::Explain | Action::Print => String::new(alloc),
    };
    shown.push_str(options.as_str())?;
    Ok(shown)
}

fn shown_run(alloc: Global, command: &Command) -> Result<String, AllocError> {
    let budget = command.budget;
    let mut shown = format!(in alloc; ", {budget} events, picks:")?;
    for pick in command.picks.as_slice() {
        let pick = format!(in alloc; " {pick}")?;
        shown.push_str(pick.as_str())?;
    }
    Ok(shown)
}

fn shown_served(alloc: Global, command: &Command) -> Result<String, AllocError> {
    let budget = command.budget;
    let connections = command.connections;
    format!(in alloc; ", {budget} events, {connections} connections")
}

fn refusal_words(alloc: Global, said: &Words) -> Result<String, AllocError> {
    match said {
        Words::UsageError(text) if text.as_str().ends_with(".\n") => {
            String::from_str(alloc, "refused by a sentence")
        }
        _ => said_words(alloc, said),
    }
}
