//! Serving a connection.
ghost use Rattle.std.specs.Prelude.{◌≡◌, List, IfOk, OnErr, MatchResult};
ghost use Rattle.std.specs.Io.KnownBytes.{Appends, Consumes, IsAtEnd};
ghost use Rattle.http_port.specs.Asking.{Grows};
ghost use Rattle.http_port.specs.Feeding.{Spent};
ghost use Rattle.http_port.specs.Serving.{Service, IsFed, Serves, cut_behind, lost_behind};
ghost use Rattle.http_port.specs.Prompt.{IsPrompt, StopsAtNothing};
ghost use Rattle.outside_traits.specs.Told.{Lists};
ghost use Rattle.outside_traits.specs.declared.calls.WireCall.{WireCall};

use crate::head_reader::HeadReader;
use crate::serve::Serve;
use crate::turn::{Turn, take_turn};
use outside_traits::{Failed, Wire};
use std::alloc::{AllocError, Global};

/// How the serving of a connection ends.
#[derive(Clone, Copy, Debug, PartialEq, Eq)]
pub enum WireEnd {
    /// No more bytes come.
    Ended,
    /// A response was written that closes the connection.
    Closed,
    /// A read failed.
    ReadFailed,
    /// A write failed.
    WriteFailed,
    /// The answer of the last request comes later; the connection closes with it, or goes on.
    Later { close: bool },
}

/// How many bytes are read at once.
const CHUNK: usize = 4096;

/// Serves the requests of a connection one after another, as far as the bytes reach: writes the interim lines and the
/// responses, and asks for each answer. Where an answer comes later, the caller writes it and may call again.
pub fn serve_wire<W: Wire, S: Serve>(
    alloc: Global,
    wire: &mut W,
    reader: &mut HeadReader,
    serve: &mut S,
) -> Result<WireEnd, AllocError>
    ensures serves { IfOk result (λ end. (did : Service) × (calls : List WireCall)
        × Appends (W.told wire.old).read (W.told wire.new).read did.came
        × Consumes (W.told wire.old).unread (W.told wire.new).unread did.came
        × Appends (W.told wire.old).written (W.told wire.new).written did.went
        × Lists (W.told wire.old).calls (W.told wire.new).calls calls
        × Grows (S.heard serve.old) (S.heard serve.new) did.bodies
        × Grows (S.said serve.old) (S.said serve.new) did.said
        × IsFed reader.old did end reader.new
        × IsPrompt reader.old did calls
        × StopsAtNothing calls
        × Serves reader.old did end) }
    ensures ended { result ≡ Ok WireEnd.Ended → IsAtEnd (W.told wire.new).unread }
    ensures lost { MatchResult result
        (λ end. (W.told wire.new).read_failed ≡ lost_behind end (W.told wire.old).read_failed)
        (λ _. (W.told wire.new).read_failed ≡ (W.told wire.old).read_failed) }
    ensures cut { MatchResult result
        (λ end. (W.told wire.new).write_failed
        ≡ cut_behind end (W.told wire.old).closed (W.told wire.old).write_failed)
        (λ _. (W.told wire.new).write_failed ≡ (W.told wire.old).write_failed) }
    ensures closed { (W.told wire.new).closed ≡ (W.told wire.old).closed }
    ensures err { OnErr result (reader.new ≡ Spent) }
{
    let end = serve_each(alloc, wire, reader, serve);
    if end.is_err() {
        reader.spend();
    }
    end
}

/// Serves turn by turn, with what the reader holds first. It notes how long the piece of each turn was: so memory ends
/// where the wire does not.
fn serve_each<W: Wire, S: Serve>(
    alloc: Global,
    wire: &mut W,
    reader: &mut HeadReader,
    serve: &mut S,
) -> Result<WireEnd, AllocError>
    ensures serves { IfOk result (λ end. (did : Service) × (calls : List WireCall)
        × Appends (W.told wire.old).read (W.told wire.new).read did.came
        × Consumes (W.told wire.old).unread (W.told wire.new).unread did.came
        × Appends (W.told wire.old).written (W.told wire.new).written did.went
        × Lists (W.told wire.old).calls (W.told wire.new).calls calls
        × Grows (S.heard serve.old) (S.heard serve.new) did.bodies
        × Grows (S.said serve.old) (S.said serve.new) did.said
        × IsFed reader.old did end reader.new
        × IsPrompt reader.old did calls
        × StopsAtNothing calls
        × Serves reader.old did end) }
    ensures ended { result ≡ Ok WireEnd.Ended → IsAtEnd (W.told wire.new).unread }
    ensures lost { MatchResult result
        (λ end. (W.told wire.new).read_failed ≡ lost_behind end (W.told wire.old).read_failed)
        (λ _. (W.told wire.new).read_failed ≡ (W.told wire.old).read_failed) }
    ensures cut { MatchResult result
        (λ end. (W.told wire.new).write_failed
        ≡ cut_behind end (W.told wire.old).closed (W.told wire.old).write_failed)
        (λ _. (W.told wire.new).write_failed ≡ (W.told wire.old).write_failed) }
    ensures closed { (W.told wire.new).closed ≡ (W.told wire.old).closed }
{
    reader.asks_where_given();
    let mut pieces = Vec::new(alloc);
    let mut chunk = [0; CHUNK];
    let mut count = 0;
    loop {
        pieces.push(count)?;
        match take_turn(alloc, wire, reader, serve, &chunk[..count])? {
            Turn::GoesOn => count = 0,
            Turn::Ends(end) => return Ok(end),
            Turn::Waits => match wire.read(&mut chunk) {
                Ok(0) => return Ok(WireEnd::Ended),
                Ok(read) => count = read,
                Err(Failed) => return Ok(WireEnd::ReadFailed),
            },
        }
    }
}
