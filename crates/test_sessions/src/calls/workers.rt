//! Calls of workers, but for posts.

use office_core::OutKind;
use office_plain::Office;
use std::alloc::Global;
use test_calls::{
    Line, Words, done, given, none, not_allowed, number, outgoing_words, read_outcome,
};
use test_conditions::{is_collectable, is_fetched, works};
use test_values::WordError;

/// The actors from this number on are workers.
const FIRST_WORKER: u32 = 4_096;

pub fn collect(alloc: Global, office: &mut Office, line: Line<'_>) -> Result<String, WordError> {
    let message = number(line.with)?;
    if line.actor < FIRST_WORKER || !is_collectable(office, line.actor, message)? {
        return not_allowed(alloc);
    }
    given(alloc, office.collect(line.actor, message)?, line.want)
}

pub fn fetch(alloc: Global, office: &mut Office, line: Line<'_>) -> Result<String, WordError> {
    if !works(office, line.actor) {
        return not_allowed(alloc);
    }
    let kind = match line.with {
        "console" => OutKind::Console,
        "remote" => OutKind::Remote,
        _ => return Err(WordError::Unknown),
    };
    match office.fetch(line.actor, kind)? {
        Some(outgoing) => outgoing_words(alloc, &outgoing, line.want),
        None => none(alloc),
    }
}

pub fn answered(alloc: Global, office: &mut Office, line: Line<'_>) -> Result<String, WordError> {
    let mut words = Words { rest: line.with };
    let (session, call) = words.pair()?;
    if !works(office, line.actor) || !is_fetched(office, line.actor, session, call)? {
        return not_allowed(alloc);
    }
    let outcome = read_outcome(alloc, words.rest)?;
    office.answered(line.actor, session, call, outcome)?;
    done(alloc)
}

pub fn close(alloc: Global, office: &mut Office, line: Line<'_>) -> Result<String, WordError> {
    if !works(office, line.actor) {
        return not_allowed(alloc);
    }
    office.close(line.actor);
    done(alloc)
}

pub fn stop(alloc: Global, office: &mut Office, line: Line<'_>) -> Result<String, WordError> {
    if !works(office, line.actor) {
        return not_allowed(alloc);
    }
    office.stop(line.actor);
    done(alloc)
}
