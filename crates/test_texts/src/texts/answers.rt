//! The texts of answers.

use behaviour_tree::{Outcome, Program, Reason};
use jolie_trees::{Text, Tree};
use jsonrpc_text::{Early, Id, answer_text, batch_text, early_text};
use std::alloc::Global;
use test_rows::Row;
use test_values::{WordError, read_tree, read_type};

/// The text of the answer of a row, as an operation of its type gives it.
pub fn answer(alloc: Global, row: &Row<'_>, program: &Program) -> anyhow::Result<String> {
    let id = id_of(alloc, row.text(alloc, "id")?.as_str())?;
    let ty = read_type(alloc, row.text(alloc, "type")?.as_str())?;
    let outcome = outcome(alloc, row)?;
    let text = answer_text(alloc, &id, &outcome, &ty, program)?;
    Ok(String::from_str(alloc, text.as_str())?)
}

/// The id that a word is: `null`, `-` for none, a number, a text behind `'`.
fn id_of(alloc: Global, word: &str) -> Result<Id, WordError> {
    if let Some(text) = word.strip_prefix('\'') {
        return Ok(Id::Text(Text::new(alloc, text)?));
    }
    match word {
        "null" => Ok(Id::Null),
        "-" => Ok(Id::None),
        _ => id_number(word),
    }
}

fn id_number(word: &str) -> Result<Id, WordError> {
    if let Ok(number) = i64::from_str_radix(word, 10) {
        return Ok(Id::Int(number));
    }
    match u64::from_str_radix(word, 10) {
        Ok(number) => Ok(Id::Big(number)),
        Err(_) => Err(WordError::Unknown),
    }
}

/// How the request of a row ended.
fn outcome(alloc: Global, row: &Row<'_>) -> anyhow::Result<Box<Outcome>> {
    match row.text(alloc, "call")?.as_str() {
        "value" => {
            let value = value(alloc, row)?;
            Ok(Box::new(alloc, Outcome::Value(value))?)
        }
        "fault" => fault(alloc, row),
        _ => {
            let reason = reason(row.text(alloc, "reason")?.as_str())?;
            Ok(Box::new(alloc, Outcome::Refused(reason))?)
        }
    }
}

fn value(alloc: Global, row: &Row<'_>) -> anyhow::Result<Tree> {
    let words = row.text(alloc, "value")?;
    Ok(read_tree(alloc, words.as_str())?)
}

fn fault(alloc: Global, row: &Row<'_>) -> anyhow::Result<Box<Outcome>> {
    let name = Text::from_string(row.text(alloc, "fault")?);
    let value = value(alloc, row)?;
    Ok(Box::new(alloc, Outcome::Fault { name, value })?)
}

/// The reason of a name, or of a code of its own.
fn reason(word: &str) -> Result<Reason, WordError> {
    match word {
        "UnknownOperation" => Ok(Reason::UnknownOperation),
        "NotConforming" => Ok(Reason::NotConforming),
        "Correlation" => Ok(Reason::Correlation),
        "BoxFull" => Ok(Reason::BoxFull),
        "RunFull" => Ok(Reason::RunFull),
        "Stopped" => Ok(Reason::Stopped),
        "SessionEnded" => Ok(Reason::SessionEnded),
        _ => match i64::from_str_radix(word, 10) {
            Ok(code) => Ok(Reason::Other(code)),
            Err(_) => Err(WordError::Unknown),
        },
    }
}

/// The text of an early refusal.
pub fn early_answer(alloc: Global, word: &str) -> anyhow::Result<String> {
    let text = early_text(alloc, &Id::Null, &early(word)?)?;
    Ok(String::from_str(alloc, text.as_str())?)
}

fn early(word: &str) -> Result<Early, WordError> {
    match word {
        "parse error" => Ok(Early::Parse),
        "invalid request" => Ok(Early::Invalid),
        "invalid params" => Ok(Early::Params),
        _ => Err(WordError::Unknown),
    }
}

/// The text of a batch of so many answers, each of which is `1`.
pub fn batch(alloc: Global, answers: u32) -> anyhow::Result<String> {
    let mut texts = Vec::new(alloc);
    for _ in 0..answers {
        texts.push(Text::new(alloc, "1")?)?;
    }
    let text = batch_text(alloc, texts.as_slice())?;
    Ok(String::from_str(alloc, text.as_str())?)
}
