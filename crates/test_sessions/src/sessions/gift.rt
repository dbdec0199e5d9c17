//! Gifts out of words.

use crate::sessions::values::read_value;
use behaviour_tree::{Given, Outcome, Reason};
use jolie_trees::Text;
use std::alloc::Global;
use test_values::WordError;

/// What the office gives for an event; nothing where there are no words.
///
/// - `mail M OP VALUE` is message M of operation OP.
/// - `value VALUE`, `fault NAME VALUE` and `code C` are the outcome of a call, the last one a refusal by its code.
/// - `bound`, `held S` and `fixed` tell what came of a binding.
pub fn read_gift(alloc: Global, words: &str) -> Result<Box<Given>, WordError> {
    let (word, rest) = words.split_once(' ').unwrap_or((words, ""));
    match word {
        "" => boxed(alloc, Given::Nothing),
        "bound" => boxed(alloc, Given::Bound),
        "held" => boxed(alloc, Given::Held(number(rest)?)),
        "fixed" => boxed(alloc, Given::Fixed),
        "mail" => mail(alloc, rest),
        "value" => answer(alloc, Outcome::Value(read_value(alloc, rest)?)),
        "fault" => fault(alloc, rest),
        "code" => answer(alloc, Outcome::Refused(reason(rest)?)),
        _ => Err(WordError::Unknown),
    }
}

fn boxed(alloc: Global, given: Given) -> Result<Box<Given>, WordError> {
    Ok(Box::new(alloc, given)?)
}

fn mail(alloc: Global, words: &str) -> Result<Box<Given>, WordError> {
    let (message, words) = words.split_once(' ').ok_or(WordError::Lacking)?;
    let (op, words) = words.split_once(' ').ok_or(WordError::Lacking)?;
    let message = number(message)?;
    let op = number(op)?;
    let value = read_value(alloc, words)?;
    boxed(alloc, Given::Mail { message, op, value })
}

fn answer(alloc: Global, outcome: Outcome) -> Result<Box<Given>, WordError> {
    boxed(alloc, Given::Answer { outcome })
}

fn fault(alloc: Global, words: &str) -> Result<Box<Given>, WordError> {
    let (name, words) = words.split_once(' ').ok_or(WordError::Lacking)?;
    let name = Text::new(alloc, name)?;
    let value = read_value(alloc, words)?;
    answer(alloc, Outcome::Fault { name, value })
}

/// The reason that has a code.
fn reason(code: &str) -> Result<Reason, WordError> {
    let code = i64::from_str_radix(code, 10).map_err(|_| WordError::Unknown)?;
    let named = [
        Reason::UnknownOperation,
        Reason::NotConforming,
        Reason::Correlation,
        Reason::BoxFull,
        Reason::RunFull,
        Reason::Stopped,
        Reason::SessionEnded,
    ];
    for reason in named {
        if reason.code() == code {
            return Ok(reason);
        }
    }
    Ok(Reason::Other(code))
}

fn number(word: &str) -> Result<u32, WordError> {
    u32::from_str_radix(word, 10).map_err(|_| WordError::Unknown)
}
