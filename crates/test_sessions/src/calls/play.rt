//! Lines that call an office.

use crate::calls::posts::{post, posts, rounds};
use crate::calls::sessions::{adopt, bind, end, reply, send, take, take_answer};
use crate::calls::workers::{answered, close, collect, fetch, stop};
use office_core::History;
use office_plain::Office;
use std::alloc::{AllocError, Global};
use test_calls::{Line, Words};
use test_values::WordError;

/// What an office answers to the lines, each after its line and ` => `.
///
/// A line begins with an actor, A: a session, or from 4,096 on a worker. A call that may not be made answers `not
/// allowed`, and one that has nothing to give `none`, or `done` where it never has. A refusal is `refused NAME CODE`.
///
/// - `A post J I D OP VALUE` posts call I of posting J to service D, and gives `ok M`, the message, or a refusal.
/// - `A posts N J D OP VALUE` posts N calls of posting J, or up to the first that is refused: how many were accepted.
/// - `A rounds N S D OP VALUE` does so, of posting 0, and session S takes each message: it is of operation 0.
/// - `A adopt` gives the service of the session.
/// - `A take OP ..` gives the message, its operation and its value.
/// - `A bind V ROOT` gives `bound`, `held S` or `fixed`; `A reply M OUTCOME` answers a message.
/// - `A send K PORT OP wants VALUE`, or `tells`, gives where it went: `ok M`, a refusal or `out`.
/// - `A answer K` and `A collect M` give an outcome.
/// - `A fetch console` or `remote` gives session, service, call, port, operation, `wants` or `tells`, and value.
/// - `A answered S K OUTCOME` brings an outcome. `A end`, `A close` and `A stop` stand alone.
/// - `A entries` gives how many entries there are.
pub fn played(alloc: Global, office: &mut Office, lines: &str) -> Result<String, WordError> {
    let mut all = String::new(alloc);
    for line in lines.split('\n') {
        play(alloc, office, line, &mut all)?;
    }
    Ok(all)
}

/// Plays a line, and puts it with its answer after the others.
fn play(alloc: Global, office: &mut Office, line: &str, all: &mut String) -> Result<(), WordError> {
    let (ask, want) = line.split_once(" => ").unwrap_or((line, ""));
    let answer = told(alloc, office, read_line(ask, want)?)?;
    if !all.as_str().is_empty() {
        all.push('\n')?;
    }
    all.push_str(ask)?;
    all.push_str(" => ")?;
    Ok(all.push_str(answer.as_str())?)
}

fn read_line<'a>(ask: &'a str, want: &'a str) -> Result<Line<'a>, WordError> {
    let mut words = Words { rest: ask };
    let actor = words.number()?;
    let call = words.word()?;
    Ok(Line {
        actor,
        call,
        with: words.rest,
        want,
    })
}

fn told(alloc: Global, office: &mut Office, line: Line<'_>) -> Result<String, WordError> {
    match line.call {
        "post" => post(alloc, office, line),
        "posts" => posts(alloc, office, line),
        "rounds" => rounds(alloc, office, line),
        "collect" => collect(alloc, office, line),
        "fetch" => fetch(alloc, office, line),
        "answered" => answered(alloc, office, line),
        "close" => close(alloc, office, line),
        "stop" => stop(alloc, office, line),
        "entries" => Ok(count(alloc, office.history())?),
        _ => told_to_session(alloc, office, line),
    }
}

fn told_to_session(
    alloc: Global,
    office: &mut Office,
    line: Line<'_>,
) -> Result<String, WordError> {
    match line.call {
        "adopt" => adopt(alloc, office, line),
        "take" => take(alloc, office, line),
        "bind" => bind(alloc, office, line),
        "reply" => reply(alloc, office, line),
        "send" => send(alloc, office, line),
        "answer" => take_answer(alloc, office, line),
        "end" => end(alloc, office, line),
        _ => Err(WordError::Unknown),
    }
}

/// How many entries there are.
fn count(alloc: Global, history: &History) -> Result<String, AllocError> {
    history.entries.len().to_string(alloc)
}
