//! Lines that ask something of a session that is seated, or of its office.

ghost use Rattle.std.specs.Prelude.{OnOk};
ghost use Rattle.test_seats.specs.Seats.{IsSeated};

use crate::turns::words::turn_words;
use std::alloc::{AllocError, Global};
use test_calls::{
    Line, Words, done, given, none, not_allowed, number, outgoing_words, read_outcome, read_posted,
    reply_words,
};
use test_conditions::{is_collectable, is_fetched};
use test_seats::{Seat, WORKER};
use test_values::WordError;

/// What a session answers to the lines, each after its line and ` => `.
///
/// - `turn PICK` gives the session a turn: `did` with the strand, the kind and the number of the event, or `idle`,
///   `ended` or `spent`.
/// - `post D OP VALUE` posts a message to service D, and gives `ok M`, the message, or a refusal.
/// - `collect M` gives the answer of a message, or `none`.
/// - `fetch` gives the next call that goes out, as `outgoing_words` has it, or `none`.
/// - `brings K OUTCOME` brings the outcome of a call that was fetched.
/// - `may` gives whether the session may act, `counts` how many events it and how many entries its office has.
///
/// A call that may not be made answers `not allowed`, and one that answers nothing `done`.
pub fn played(alloc: Global, seat: &mut Seat<'_>, lines: &str) -> Result<String, WordError>
    requires { IsSeated seat.old }
{
    let mut all = String::new(alloc);
    for line in lines.split('\n') {
        play(alloc, seat, line, &mut all)?;
    }
    Ok(all)
}

/// Plays a line, and puts it with its answer after the others.
fn play(alloc: Global, seat: &mut Seat<'_>, line: &str, all: &mut String) -> Result<(), WordError>
    requires { IsSeated seat.old }
    ensures { OnOk result (IsSeated seat.new) }
{
    let (ask, want) = line.split_once(" => ").unwrap_or((line, ""));
    let answer = told(alloc, seat, read_line(ask, want))?;
    if !all.as_str().is_empty() {
        all.push('\n')?;
    }
    all.push_str(ask)?;
    all.push_str(" => ")?;
    Ok(all.push_str(answer.as_str())?)
}

fn read_line<'a>(ask: &'a str, want: &'a str) -> Line<'a> {
    let (call, with) = ask.split_once(' ').unwrap_or((ask, ""));
    Line {
        actor: WORKER,
        call,
        with,
        want,
    }
}

fn told(alloc: Global, seat: &mut Seat<'_>, line: Line<'_>) -> Result<String, WordError>
    requires { IsSeated seat.old }
    ensures { OnOk result (IsSeated seat.new) }
{
    match line.call {
        "turn" => turn(alloc, seat, line),
        "post" => post(alloc, seat, line),
        "collect" => collect(alloc, seat, line),
        "fetch" => fetch(alloc, seat, line),
        "brings" => bring(alloc, seat, line),
        "may" => Ok(may(alloc, seat)?),
        "counts" => Ok(counts(alloc, seat)?),
        _ => Err(WordError::Unknown),
    }
}

fn turn(alloc: Global, seat: &mut Seat<'_>, line: Line<'_>) -> Result<String, WordError>
    requires { IsSeated seat.old }
    ensures { OnOk result (IsSeated seat.new) }
{
    let pick = number(line.with)?;
    let turn = seat.turn(pick)?;
    Ok(turn_words(alloc, turn)?)
}

fn post(alloc: Global, seat: &mut Seat<'_>, line: Line<'_>) -> Result<String, WordError>
    requires { IsSeated seat.old }
    ensures { OnOk result (IsSeated seat.new) }
{
    let posted = read_posted(alloc, line.with)?;
    let reply = seat.post(posted)?;
    reply_words(alloc, reply)
}

fn collect(alloc: Global, seat: &mut Seat<'_>, line: Line<'_>) -> Result<String, WordError>
    requires { IsSeated seat.old }
    ensures { OnOk result (IsSeated seat.new) }
{
    let message = number(line.with)?;
    if !is_collectable(seat.office(), WORKER, message)? {
        return not_allowed(alloc);
    }
    given(alloc, seat.collect(message)?, line.want)
}

fn fetch(alloc: Global, seat: &mut Seat<'_>, line: Line<'_>) -> Result<String, WordError>
    requires { IsSeated seat.old }
    ensures { OnOk result (IsSeated seat.new) }
{
    match seat.fetch()? {
        Some(outgoing) => outgoing_words(alloc, &outgoing, line.want),
        None => none(alloc),
    }
}

fn bring(alloc: Global, seat: &mut Seat<'_>, line: Line<'_>) -> Result<String, WordError>
    requires { IsSeated seat.old }
    ensures { OnOk result (IsSeated seat.new) }
{
    let mut words = Words { rest: line.with };
    let call = words.number()?;
    if !is_fetched(seat.office(), WORKER, 0, call)? {
        return not_allowed(alloc);
    }
    let outcome = read_outcome(alloc, words.rest)?;
    seat.bring(call, outcome)?;
    done(alloc)
}

fn may(alloc: Global, seat: &mut Seat<'_>) -> Result<String, AllocError>
    requires { IsSeated seat.old }
    ensures { OnOk result (IsSeated seat.new) }
{
    let may = seat.may_act()?;
    let word = if may { "yes" } else { "no" };
    String::from_str(alloc, word)
}

fn counts(alloc: Global, seat: &Seat<'_>) -> Result<String, AllocError> {
    let events = seat.events().len();
    let entries = seat.office().history().entries.len();
    format!(in alloc; "events {events}, entries {entries}")
}
