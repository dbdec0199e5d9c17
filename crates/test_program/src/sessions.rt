//! The events of the sessions of a run.

use crate::objects::{words, world};
use behaviour_tree::{Event, Events};
use jolie_main::{Ended, run};
use std::alloc::{AllocError, Global};
use test_rows::Row;

/// What the run of a row leaves, as its call asks for it: of its sessions the events, with how many entries its history
/// has; the kinds of the events, with their strands; or how many events there are.
pub fn left(alloc: Global, row: &Row<'_>) -> anyhow::Result<String> {
    let call = row.text(alloc, "call")?;
    let ended = ended(alloc, row)?;
    Ok(left_words(alloc, call.as_str(), &ended)?)
}

fn left_words(alloc: Global, call: &str, ended: &Ended) -> Result<String, AllocError> {
    match call {
        "record" => record_words(alloc, ended),
        "kinds" => kinds_words(alloc, ended),
        _ => counts_words(alloc, ended),
    }
}

/// How the run of a row ends.
fn ended(alloc: Global, row: &Row<'_>) -> anyhow::Result<Ended> {
    let words = words(alloc, row)?;
    let mut world = world(alloc, row)?;
    Ok(run(alloc, &words, &mut world)?)
}

fn record_words(alloc: Global, ended: &Ended) -> Result<String, AllocError> {
    let mut words = String::new(alloc);
    for events in ended.report.sessions.as_slice() {
        words.push_str("a session\n")?;
        let events = events_words(alloc, events)?;
        words.push_str(events.as_str())?;
    }
    let entries = format!(in alloc; "{} entries", ended.report.history.entries.len())?;
    words.push_str(entries.as_str())?;
    Ok(words)
}

/// A line for each event: its strand, its kind, the message or the way, the place and the fault.
fn events_words(alloc: Global, events: &Events) -> Result<String, AllocError> {
    let mut words = String::new(alloc);
    for event in events.as_slice() {
        let event = event_words(alloc, event)?;
        words.push_str(event.as_str())?;
    }
    Ok(words)
}

fn event_words(alloc: Global, event: &Event) -> Result<String, AllocError> {
    let Event {
        strand,
        kind,
        number,
        place,
        fault,
    } = *event;
    format!(in alloc; "{strand} {kind:?} {number} {place} {fault}\n")
}

fn kinds_words(alloc: Global, ended: &Ended) -> Result<String, AllocError> {
    let mut words = String::new(alloc);
    for events in ended.report.sessions.as_slice() {
        words.push_str("a session")?;
        for event in events.as_slice() {
            let kind = event.kind;
            let strand = event.strand;
            let event = format!(in alloc; ", {kind:?} {strand}")?;
            words.push_str(event.as_str())?;
        }
        words.push_str("\n")?;
    }
    Ok(words)
}

fn counts_words(alloc: Global, ended: &Ended) -> Result<String, AllocError> {
    let mut words = String::from_str(alloc, "events")?;
    for events in ended.report.sessions.as_slice() {
        let count = format!(in alloc; " {}", events.len())?;
        words.push_str(count.as_str())?;
    }
    Ok(words)
}
