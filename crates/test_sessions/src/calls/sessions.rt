//! Calls of sessions.

use correlation::BindReply;
use office_core::{Act, Entry, Mail, Placed};
use office_plain::Office;
use std::alloc::Global;
use test_calls::{
    Line, Words, behind, done, given, none, not_allowed, number, numbers, read_outcome, read_value,
    refused, value_words,
};
use test_conditions::{acts, has_variable, is_open, is_running, is_wanted, next_call, took};
use test_values::{WordError, read_root};

pub fn adopt(alloc: Global, office: &mut Office, line: Line<'_>) -> Result<String, WordError> {
    if !is_running(office) {
        return not_allowed(alloc);
    }
    match office.adopt(line.actor)? {
        Some(birth) => Ok(format!(in alloc; "service {}", birth.service)?),
        None => none(alloc),
    }
}

pub fn take(alloc: Global, office: &mut Office, line: Line<'_>) -> Result<String, WordError> {
    if !acts(office, line.actor)? {
        return not_allowed(alloc);
    }
    let ops = numbers(alloc, line.with)?;
    match office.take(line.actor, ops.as_slice())? {
        Some(mail) => mail_words(alloc, &mail, line.want),
        None => none(alloc),
    }
}

fn mail_words(alloc: Global, mail: &Mail, want: &str) -> Result<String, WordError> {
    let message = mail.message;
    let op = mail.op;
    let value = value_words(alloc, &mail.value, behind(want, 2))?;
    Ok(format!(in alloc; "{message} {op} {value}")?)
}

pub fn bind(alloc: Global, office: &mut Office, line: Line<'_>) -> Result<String, WordError> {
    let mut words = Words { rest: line.with };
    let variable = words.number()?;
    if !acts(office, line.actor)? || !has_variable(office, line.actor, variable)? {
        return not_allowed(alloc);
    }
    let value = read_root(alloc, words.rest)?;
    match office.bind(line.actor, variable, value)? {
        BindReply::Bound => Ok(String::from_str(alloc, "bound")?),
        BindReply::Held(session) => Ok(format!(in alloc; "held {session}")?),
        BindReply::Fixed => Ok(String::from_str(alloc, "fixed")?),
    }
}

pub fn reply(alloc: Global, office: &mut Office, line: Line<'_>) -> Result<String, WordError> {
    let mut words = Words { rest: line.with };
    let message = words.number()?;
    if !acts(office, line.actor)? || !took(office, line.actor, message) {
        return not_allowed(alloc);
    }
    if !is_open(office, message)? {
        return not_allowed(alloc);
    }
    let outcome = read_outcome(alloc, words.rest)?;
    office.reply(line.actor, message, outcome)?;
    done(alloc)
}

pub fn send(alloc: Global, office: &mut Office, line: Line<'_>) -> Result<String, WordError> {
    let mut words = Words { rest: line.with };
    let call = words.number()?;
    if !acts(office, line.actor)? || next_call(office, line.actor)? != call {
        return not_allowed(alloc);
    }
    let (port, op) = words.pair()?;
    let wants = words.word()? == "wants";
    let value = read_value(alloc, words.rest)?;
    office.send(line.actor, call, port, op, value, wants)?;
    placed(alloc, office.history().entries.last())
}

/// Where the message of an entry of a send went.
fn placed(alloc: Global, entry: Option<&Entry>) -> Result<String, WordError> {
    let Some(
        Entry {
            act: Act::Send { placed, .. },
            ..
        },
    ) = entry
    else {
        return Err(WordError::Unknown);
    };
    match placed {
        Placed::At(message) => Ok(format!(in alloc; "ok {message}")?),
        Placed::Refused(reason) => refused(alloc, *reason),
        Placed::Out => Ok(String::from_str(alloc, "out")?),
    }
}

pub fn take_answer(
    alloc: Global,
    office: &mut Office,
    line: Line<'_>,
) -> Result<String, WordError> {
    let call = number(line.with)?;
    if !acts(office, line.actor)? || !is_wanted(office, line.actor, call)? {
        return not_allowed(alloc);
    }
    given(alloc, office.take_answer(line.actor, call)?, line.want)
}

pub fn end(alloc: Global, office: &mut Office, line: Line<'_>) -> Result<String, WordError> {
    if !acts(office, line.actor)? {
        return not_allowed(alloc);
    }
    office.end(line.actor)?;
    done(alloc)
}
