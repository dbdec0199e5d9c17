//! What a session is asked and stays the same.

use crate::sessions::need::need_words;
use behaviour_tree::{Given, Program};
use std::alloc::{AllocError, Global};
use term_session::{StepError, TermSession};
use test_values::WordError;

/// What the event of a strand asks; the value in it as `want` writes it, where it is that one.
pub fn needed(
    alloc: Global,
    session: &TermSession,
    program: &Program,
    strand: u64,
    want: &str,
) -> Result<String, AllocError> {
    let need = match session.need(program, strand) {
        Ok(need) => need,
        Err(_) => session.need(program, strand)?,
    };
    match &need {
        Some(need) => need_words(alloc, need, want),
        None => String::from_str(alloc, "none"),
    }
}

/// The answer to a word. Where memory runs out the session is asked once more, since it is what it was.
pub fn asked(
    alloc: Global,
    session: &TermSession,
    program: &Program,
    word: &str,
) -> Result<String, WordError> {
    match word {
        "enabled" => Ok(enabled(alloc, session, program)?),
        "open" => Ok(open(alloc, session)?),
        "waiting" => Ok(waiting(alloc, session)?),
        "ended" => Ok(String::from_str(alloc, ended(session))?),
        _ => Err(WordError::Unknown),
    }
}

/// Whether no call gives anything any more.
pub fn is_spent(session: &mut TermSession, program: &Program) -> bool {
    let looks = session.enabled(program).is_ok() || session.need(program, 0).is_ok();
    let tells = session.open_calls().is_ok() || session.waiting().is_ok() || session.ended();
    match session.step(program, 0, Given::Nothing) {
        Err(StepError::Memory(_)) => !looks && !tells,
        Ok(_) | Err(StepError::NotEnabled(_)) => false,
    }
}

fn enabled(alloc: Global, session: &TermSession, program: &Program) -> Result<String, AllocError> {
    let strands = match session.enabled(program) {
        Ok(strands) => strands,
        Err(_) => session.enabled(program)?,
    };
    strands_words(alloc, strands.as_slice())
}

fn open(alloc: Global, session: &TermSession) -> Result<String, AllocError> {
    let messages = match session.open_calls() {
        Ok(messages) => messages,
        Err(_) => session.open_calls()?,
    };
    numbers_words(alloc, messages.as_slice())
}

fn waiting(alloc: Global, session: &TermSession) -> Result<String, AllocError> {
    let calls = match session.waiting() {
        Ok(calls) => calls,
        Err(_) => session.waiting()?,
    };
    numbers_words(alloc, calls.as_slice())
}

fn ended(session: &TermSession) -> &'static str {
    if session.ended() { "yes" } else { "no" }
}

fn strands_words(alloc: Global, strands: &[u64]) -> Result<String, AllocError> {
    let mut words = String::new(alloc);
    for strand in strands {
        add_word(&mut words, strand.to_string(alloc)?.as_str())?;
    }
    or_none(words)
}

/// The words of numbers, `-` where there are none.
pub fn numbers_words(alloc: Global, numbers: &[u32]) -> Result<String, AllocError> {
    let mut words = String::new(alloc);
    for number in numbers {
        add_word(&mut words, number.to_string(alloc)?.as_str())?;
    }
    or_none(words)
}

fn add_word(words: &mut String, word: &str) -> Result<(), AllocError> {
    if !words.as_str().is_empty() {
        words.push(' ')?;
    }
    words.push_str(word)
}

fn or_none(mut words: String) -> Result<String, AllocError> {
    if words.as_str().is_empty() {
        words.push('-')?;
    }
    Ok(words)
}
