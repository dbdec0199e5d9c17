//! What is heard of calls.

use crate::calls::sent::outgoing;
use behaviour_tree::{Outcome, Reason};
use jsonrpc_calls::{nothing_heard, outcome_heard, read_answer};
use std::alloc::{AllocError, Global};
use test_rows::Row;
use test_values::{WordError, read_tree};

/// What the text of a row says to an id.
pub fn said(alloc: Global, row: &Row<'_>) -> anyhow::Result<String> {
    let text = row.bytes(alloc, "text")?;
    let id = id_of(row.text(alloc, "id")?.as_str())?;
    match read_answer(alloc, text.as_slice(), id)? {
        None => Ok(String::from_str(alloc, "nothing")?),
        Some(outcome) => Ok(outcome_words(alloc, &outcome)?),
    }
}

fn id_of(word: &str) -> Result<u64, WordError> {
    u64::from_str_radix(word, 10).map_err(|_| WordError::Unknown)
}

/// What is heard of the trip of a row, which failed where no bytes came.
pub fn heard_of_trip(alloc: Global, row: &Row<'_>) -> anyhow::Result<String> {
    if !row.has("came") {
        return Ok(outcome_words(alloc, &nothing_heard(alloc)?)?);
    }
    let bytes = row.bytes(alloc, "came")?;
    let out = outgoing(alloc, row)?;
    Ok(outcome_words(alloc, &outcome_heard(alloc, &out, bytes.as_slice())?)?)
}

/// An outcome in words.
fn outcome_words(alloc: Global, outcome: &Outcome) -> Result<String, AllocError> {
    match outcome {
        Outcome::Value(value) => format!(in alloc; "value {value:?}"),
        Outcome::Fault { name, value } => format!(in alloc; "fault {} {value:?}", name.as_str()),
        Outcome::Refused(reason) => {
            let code = reason.code();
            format!(in alloc; "refused {} {code}", reason_word(*reason))
        }
    }
}

fn reason_word(reason: Reason) -> &'static str {
    match reason {
        Reason::UnknownOperation => "UnknownOperation",
        Reason::NotConforming => "NotConforming",
        Reason::Correlation => "Correlation",
        Reason::BoxFull => "BoxFull",
        Reason::RunFull => "RunFull",
        Reason::Stopped => "Stopped",
        Reason::SessionEnded => "SessionEnded",
        Reason::Other(_) => "Other",
    }
}

/// The value that a row expects, or its fault with that value.
pub fn outcome_wanted(alloc: Global, row: &Row<'_>) -> anyhow::Result<String> {
    let words = row.text(alloc, "value")?;
    let value = read_tree(alloc, words.as_str())?;
    if row.has("fault") {
        let name = row.text(alloc, "fault")?;
        return Ok(format!(in alloc; "fault {} {value:?}", name.as_str())?);
    }
    Ok(format!(in alloc; "value {value:?}")?)
}
