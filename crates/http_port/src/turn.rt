//! One turn of serving a connection.
ghost use Rattle.std.specs.Prelude.{◌≡◌, ◌<◌, ◌||◌, not, ℕ, List, [], ◌∷◌, true, false, length, take, IfOk, MatchResult};
ghost use Rattle.std.specs.Io.KnownBytes.{Appends};
ghost use Rattle.http_port.specs.Asking.{Grows};
ghost use Rattle.http_port.specs.Feeding.{Feeds};
ghost use Rattle.http_port.specs.Responses.{interim, response};
ghost use Rattle.http_port.specs.Serving.{bodies_in};
ghost use Rattle.http_port.specs.Turns.{turn_behind, Writes, Answers, Reacts, cut_by, goes};
ghost use Rattle.http_port.specs.Writing.{IsWritten};
ghost use Rattle.http_port.specs.declared.head_reader.Fed.{Fed};
ghost use Rattle.http_port.specs.declared.serve.Said.{Said};

use crate::head_reader::{Fed, HeadReader};
use crate::response::response_bytes;
use crate::serve::{Said, Serve};
use crate::serving::WireEnd;
use crate::status::{NO_CONTENT, OK};
use outside_traits::{Failed, Wire};
use std::alloc::{AllocError, Global};

/// How serving goes on.
#[derive(Clone, Copy)]
pub(crate) enum Turn {
    /// With what follows.
    GoesOn,
    /// With more bytes.
    Waits,
    /// Not at all.
    Ends(WireEnd),
}

/// The interim line.
const INTERIM: &[u8] = b"HTTP/1.1 100 Continue\r\n\r\n";

/// Feeds the reader a piece, and does what that calls for.
#[tactic(auto, using(crate::proofs::CallLemmas::nothing_written))]
pub(crate) fn take_turn<W: Wire, S: Serve>(
    alloc: Global,
    wire: &mut W,
    reader: &mut HeadReader,
    serve: &mut S,
    piece: &[u8],
) -> Result<Turn, AllocError>
    ensures reacts { IfOk result (λ turn. (fed : Fed) × (said : List Said) × (went : List ℕ)
        × Feeds reader.old piece.now fed reader.new
        × Reacts fed said went turn
        × Appends (W.told wire.old).written (W.told wire.new).written went
        × IsWritten (W.told wire.old).calls (W.told wire.new).calls went (goes turn)
        × Grows (S.heard serve.old) (S.heard serve.new) (bodies_in (fed ∷ []))
        × Grows (S.said serve.old) (S.said serve.new) said) }
    ensures lost { (W.told wire.new).read_failed ≡ (W.told wire.old).read_failed }
    ensures cut { MatchResult result
        (λ turn. (W.told wire.new).write_failed ≡ cut_by turn (W.told wire.old).closed (W.told wire.old).write_failed)
        (λ _. (W.told wire.new).write_failed ≡ (W.told wire.old).write_failed) }
    ensures given { (W.told wire.new).read ≡ (W.told wire.old).read }
    ensures left { (W.told wire.new).unread ≡ (W.told wire.old).unread }
    ensures closed { (W.told wire.new).closed ≡ (W.told wire.old).closed }
{
    match reader.feed(piece)? {
        Fed::NotYet => Ok(Turn::Waits),
        Fed::Interim => Ok(write(wire, INTERIM, Turn::GoesOn)),
        Fed::Request { body, close } => answer(alloc, wire, serve, body.as_slice(), close),
        Fed::Refused(status) => respond(alloc, wire, status, &[], true),
    }
}

/// Hands a body on, and writes what is said to it.
fn answer<W: Wire, S: Serve>(
    alloc: Global,
    wire: &mut W,
    serve: &mut S,
    body: &[u8],
    close: bool,
) -> Result<Turn, AllocError>
    ensures answers { IfOk result (λ turn. (first : Said) × (went : List ℕ)
        × Answers first close went turn
        × Appends (W.told wire.old).written (W.told wire.new).written went
        × IsWritten (W.told wire.old).calls (W.told wire.new).calls went (goes turn)
        × Grows (S.heard serve.old) (S.heard serve.new) (body.now ∷ [])
        × Grows (S.said serve.old) (S.said serve.new) (first ∷ [])) }
    ensures lost { (W.told wire.new).read_failed ≡ (W.told wire.old).read_failed }
    ensures cut { MatchResult result
        (λ turn. (W.told wire.new).write_failed ≡ cut_by turn (W.told wire.old).closed (W.told wire.old).write_failed)
        (λ _. (W.told wire.new).write_failed ≡ (W.told wire.old).write_failed) }
    ensures given { (W.told wire.new).read ≡ (W.told wire.old).read }
    ensures left { (W.told wire.new).unread ≡ (W.told wire.old).unread }
    ensures closed { (W.told wire.new).closed ≡ (W.told wire.old).closed }
{
    let said = serve.request(body)?;
    reply(alloc, wire, &said, close)
}

/// Writes what was said to a request, unless it comes later.
#[tactic(auto, using(crate::proofs::CallLemmas::nothing_written))]
fn reply<W: Wire>(alloc: Global, wire: &mut W, said: &Said, close: bool) -> Result<Turn, AllocError>
    ensures answers { IfOk result (λ turn. (went : List ℕ)
        × Answers said.now close went turn
        × Appends (W.told wire.old).written (W.told wire.new).written went
        × IsWritten (W.told wire.old).calls (W.told wire.new).calls went (goes turn)) }
    ensures lost { (W.told wire.new).read_failed ≡ (W.told wire.old).read_failed }
    ensures cut { MatchResult result
        (λ turn. (W.told wire.new).write_failed ≡ cut_by turn (W.told wire.old).closed (W.told wire.old).write_failed)
        (λ _. (W.told wire.new).write_failed ≡ (W.told wire.old).write_failed) }
    ensures given { (W.told wire.new).read ≡ (W.told wire.old).read }
    ensures left { (W.told wire.new).unread ≡ (W.told wire.old).unread }
    ensures closed { (W.told wire.new).closed ≡ (W.told wire.old).closed }
{
    match said {
        Said::Text(text) => respond(alloc, wire, OK, text.as_slice(), close),
        Said::Nothing => respond(alloc, wire, NO_CONTENT, &[], close),
        Said::Later => Ok(Turn::Ends(WireEnd::Later { close })),
    }
}

/// Writes a response, with which the connection closes or goes on.
fn respond<W: Wire>(
    alloc: Global,
    wire: &mut W,
    status: u16,
    body: &[u8],
    close: bool,
) -> Result<Turn, AllocError>
    ensures writes { IfOk result (λ turn. (went : List ℕ)
        × Writes (response status body.now close) (turn_behind close) went turn
        × Appends (W.told wire.old).written (W.told wire.new).written went
        × IsWritten (W.told wire.old).calls (W.told wire.new).calls went (goes turn)) }
    ensures lost { (W.told wire.new).read_failed ≡ (W.told wire.old).read_failed }
    ensures cut { MatchResult result
        (λ turn. (W.told wire.new).write_failed ≡ cut_by turn (W.told wire.old).closed (W.told wire.old).write_failed)
        (λ _. (W.told wire.new).write_failed ≡ (W.told wire.old).write_failed) }
    ensures given { (W.told wire.new).read ≡ (W.told wire.old).read }
    ensures left { (W.told wire.new).unread ≡ (W.told wire.old).unread }
    ensures closed { (W.told wire.new).closed ≡ (W.told wire.old).closed }
{
    let bytes = response_bytes(alloc, status, body, close)?;
    Ok(write(wire, bytes.as_slice(), turn_behind(close)))
}

/// How a turn goes on behind an answer.
fn turn_behind(close: bool) -> Turn
    ensures { result ≡ turn_behind close }
{
    if close {
        Turn::Ends(WireEnd::Closed)
    } else {
        Turn::GoesOn
    }
}

/// Writes a text and then goes on so, or ends where the wire fails.
#[tactic(auto, using(crate::proofs::CallLemmas::written_so))]
fn write<W: Wire>(wire: &mut W, text: &[u8], next: Turn) -> Turn
    ensures writes { (went : List ℕ)
        × Writes text.now next went result
        × Appends (W.told wire.old).written (W.told wire.new).written went
        × IsWritten (W.told wire.old).calls (W.told wire.new).calls went (goes result) }
    ensures lost { (W.told wire.new).read_failed ≡ (W.told wire.old).read_failed }
    ensures cut { cut_by next (W.told wire.old).closed (W.told wire.old).write_failed ≡ (W.told wire.old).write_failed
        → (W.told wire.new).write_failed ≡ cut_by result (W.told wire.old).closed (W.told wire.old).write_failed }
    ensures given { (W.told wire.new).read ≡ (W.told wire.old).read }
    ensures left { (W.told wire.new).unread ≡ (W.told wire.old).unread }
    ensures closed { (W.told wire.new).closed ≡ (W.told wire.old).closed }
{
    match write_all(wire, text) {
        Ok(()) => next,
        Err(Failed) => Turn::Ends(WireEnd::WriteFailed),
    }
}

/// Writes all of the bytes, or a front of them where the wire fails.
#[tactic(auto, using(crate::proofs::CallLemmas::nothing_written, crate::proofs::CallLemmas::written_still))]
pub fn write_all<W: Wire>(wire: &mut W, bytes: &[u8]) -> Result<(), Failed>
    ensures writes { MatchResult result
        (λ _. Appends (W.told wire.old).written (W.told wire.new).written bytes.now
        × IsWritten (W.told wire.old).calls (W.told wire.new).calls bytes.now true)
        (λ _. (count : ℕ) × (count < length bytes.now)
        × Appends (W.told wire.old).written (W.told wire.new).written (take count bytes.now)
        × IsWritten (W.told wire.old).calls (W.told wire.new).calls (take count bytes.now) false) }
    ensures lost { (W.told wire.new).read_failed ≡ (W.told wire.old).read_failed }
    ensures cut { MatchResult result
        (λ _. (W.told wire.new).write_failed ≡ (W.told wire.old).write_failed)
        (λ _. (W.told wire.new).write_failed ≡ ((W.told wire.old).write_failed || not (W.told wire.old).closed)) }
    ensures ended { (W.told wire.new).ended ≡ (W.told wire.old).ended }
    ensures given { (W.told wire.new).read ≡ (W.told wire.old).read }
    ensures left { (W.told wire.new).unread ≡ (W.told wire.old).unread }
    ensures closed { (W.told wire.new).closed ≡ (W.told wire.old).closed }
{
    let mut done = 0;
    while done < bytes.len() {
        done += wire.write(&bytes[done..])?;
    }
    Ok(())
}
