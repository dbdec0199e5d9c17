//! Outcomes and refusals in words.

use crate::values::{read_value, value_words};
use crate::words::behind;
use behaviour_tree::{Outcome, Reason};
use jolie_trees::Text;
use std::alloc::Global;
use test_values::WordError;

/// The outcome that words are: `value VALUE`, or `fault NAME VALUE`.
pub fn read_outcome(alloc: Global, words: &str) -> Result<Outcome, WordError> {
    let (word, rest) = words.split_once(' ').ok_or(WordError::Lacking)?;
    match word {
        "value" => Ok(Outcome::Value(read_value(alloc, rest)?)),
        "fault" => read_fault(alloc, rest),
        _ => Err(WordError::Unknown),
    }
}

fn read_fault(alloc: Global, words: &str) -> Result<Outcome, WordError> {
    let (name, rest) = words.split_once(' ').ok_or(WordError::Lacking)?;
    let name = Text::new(alloc, name)?;
    let value = read_value(alloc, rest)?;
    Ok(Outcome::Fault { name, value })
}

/// What a call answers that gives an outcome, or none; a value in it as `want` writes it, where it is that one.
pub fn given(alloc: Global, outcome: Option<Outcome>, want: &str) -> Result<String, WordError> {
    match &outcome {
        Some(outcome) => outcome_words(alloc, outcome, want),
        None => none(alloc),
    }
}

fn outcome_words(alloc: Global, outcome: &Outcome, want: &str) -> Result<String, WordError> {
    match outcome {
        Outcome::Value(value) => {
            let value = value_words(alloc, value, behind(want, 1))?;
            Ok(format!(in alloc; "value {value}")?)
        }
        Outcome::Fault { name, value } => {
            let name = name.as_str();
            let value = value_words(alloc, value, behind(want, 2))?;
            Ok(format!(in alloc; "fault {name} {value}")?)
        }
        Outcome::Refused(reason) => refused(alloc, *reason),
    }
}

/// What a call answers that is refused.
pub fn refused(alloc: Global, reason: Reason) -> Result<String, WordError> {
    let code = reason.code();
    Ok(format!(in alloc; "refused {reason:?} {code}")?)
}

/// What a call answers that may not be made.
pub fn not_allowed(alloc: Global) -> Result<String, WordError> {
    Ok(String::from_str(alloc, "not allowed")?)
}

/// What a call answers that answers nothing.
pub fn done(alloc: Global) -> Result<String, WordError> {
    Ok(String::from_str(alloc, "done")?)
}

/// What a call answers that has nothing to give.
pub fn none(alloc: Global) -> Result<String, WordError> {
    Ok(String::from_str(alloc, "none")?)
}
