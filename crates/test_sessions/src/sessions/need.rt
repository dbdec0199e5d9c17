//! Needs as words.

use crate::sessions::asked::numbers_words;
use crate::sessions::values::value_words;
use behaviour_tree::{Need, Outcome};
use jolie_trees::Tree;
use std::alloc::{AllocError, Global};

/// What an event asks of the office: `nothing`, `take OP ..`, `answer K`, `bind V ROOT`, `reply M` with an outcome as
/// gifts have it, `send K PORT OP wants VALUE`, where no answer is wanted `send K PORT OP tells VALUE`, or `finish`.
///
/// The value in it is as `want` writes it, where it is that one.
pub fn need_words(alloc: Global, need: &Need, want: &str) -> Result<String, AllocError> {
    match need {
        Need::Nothing => String::from_str(alloc, "nothing"),
        Need::Take { ops } => {
            let ops = numbers_words(alloc, ops.as_slice())?;
            format!(in alloc; "take {ops}")
        }
        Need::Answer { call } => format!(in alloc; "answer {call}"),
        Need::Bind { variable, value } => {
            let head = format!(in alloc; "bind {variable} ")?;
            let value = Tree::of_root(alloc, value.copied()?);
            with_value(alloc, head, &value, want)
        }
        Need::Reply { message, outcome } => reply_words(alloc, *message, outcome, want),
        Need::Send {
            call,
            port,
            op,
            value,
            wants,
        } => {
            let how = if *wants { "wants" } else { "tells" };
            let head = format!(in alloc; "send {call} {port} {op} {how} ")?;
            with_value(alloc, head, value, want)
        }
        Need::Finish => String::from_str(alloc, "finish"),
    }
}

fn reply_words(
    alloc: Global,
    message: u32,
    outcome: &Outcome,
    want: &str,
) -> Result<String, AllocError> {
    match outcome {
        Outcome::Value(value) => {
            let head = format!(in alloc; "reply {message} value ")?;
            with_value(alloc, head, value, want)
        }
        Outcome::Fault { name, value } => {
            let name = name.as_str();
            let head = format!(in alloc; "reply {message} fault {name} ")?;
            with_value(alloc, head, value, want)
        }
        Outcome::Refused(reason) => {
            let code = reason.code();
            format!(in alloc; "reply {message} code {code}")
        }
    }
}

/// The words of a need that ends with a value.
fn with_value(
    alloc: Global,
    mut words: String,
    value: &Tree,
    want: &str,
) -> Result<String, AllocError> {
    let want = want.strip_prefix(words.as_str()).unwrap_or("");
    let value = value_words(alloc, value, want)?;
    words.push_str(value.as_str())?;
    Ok(words)
}
