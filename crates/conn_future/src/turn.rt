//! A turn of a connection: one call of its wire at most, and what it calls for.
ghost use Rattle.std.specs.Prelude.{◌≡◌, ◌≢◌, IfOk, OnErr};
ghost use Rattle.http_port.specs.Talk.{answer as answer_text};
ghost use Rattle.conn_future.specs.Stages.{stage_of, IsAtRest};
ghost use Rattle.conn_future.specs.Talking.{seen, TalksOn};
ghost use Rattle.conn_future.specs.Steps.{CallsOn, HoldsLongest, KeepsRow, Stops, LeavesLess, TakesUp, FollowsOn, IsOutOn, Finishes, IsMade, SameRows, unmade};
ghost use Rattle.conn_future.specs.declared.stage.Stage.TheVariants as Stages;
ghost use Rattle.conn_future.specs.declared.stage.Standing.TheVariants as Stands;
ghost use Rattle.conn_future.specs.declared.turn.Turn.TheVariants as Turns;

use crate::kept::Kept;
use crate::stage::{Ending, Standing};
use http_port::status::{NO_CONTENT, OK};
use http_port::{Fed, response_bytes};
use jolie_trees::Bytes;
use outside_polling::{PollWire, Ready};
use outside_traits::Failed;
use std::alloc::{AllocError, Global};

/// How many bytes are read at once.
const CHUNK: usize = 4096;

/// The interim line.
const INTERIM: &[u8] = b"HTTP/1.1 100 Continue\r\n\r\n";

/// What a turn came to.
#[derive(Clone, Copy)]
pub(crate) enum Turn {
    /// Something moved, or a response was made.
    GoesOn,
    /// The wire can move nothing yet.
    Waits,
    /// A request that is whole has no answer yet.
    Owes,
    /// The connection is over.
    Over,
}

/// Does what is next.
pub(crate) fn take_turn<W: PollWire>(wire: &mut W, kept: &mut Kept) -> Result<Turn, AllocError>
    ensures talks { TalksOn (seen kept.old (W.told wire.old)) (seen kept.new (W.told wire.new)) }
    ensures called { CallsOn (seen kept.old (W.told wire.old)) (seen kept.new (W.told wire.new)) }
    ensures stops { IfOk result
        (λ turn. Stops turn (W.told wire.old).waits (W.told wire.new).waits (stage_of kept.new.next)) }
    ensures spent { OnErr result (((W.told wire.new).waits ≡ (W.told wire.old).waits)
        × (kept.new.next ≡ Stands.Spent)) }
    ensures less { IfOk result (λ turn. LeavesLess turn kept.old kept.new) }
    ensures row { IfOk result (λ turn. KeepsRow turn
        (W.told wire.old).in_a_row (W.told wire.new).in_a_row kept.old kept.new) }
    ensures longest { HoldsLongest (stage_of kept.old.next) (stage_of kept.new.next)
        (W.told wire.old) (W.told wire.new) }
    ensures rests { IsAtRest (stage_of kept.old.next) → (kept.new ≡ kept.old) × (wire.new ≡ wire.old) }
    ensures owes { stage_of kept.new.next ≡ Stages.Owes → stage_of kept.old.next ≡ Stages.Owes }
{
    match &kept.next {
        Standing::Waits => read_on(wire, kept),
        Standing::Holds { .. } => Ok(Turn::Owes),
        Standing::Owes { .. } => Ok(Turn::Owes),
        Standing::Says { close } => {
            let close = *close;
            respond(kept, close)?;
            Ok(Turn::GoesOn)
        }
        Standing::Sends { close } => {
            let close = *close;
            write_on(wire, kept, close)
        }
        Standing::Over(_) => Ok(Turn::Over),
        Standing::Spent => Err(AllocError),
    }
}

/// Reads a piece, if one has come, and takes up what the reader gives for it.
fn read_on<W: PollWire>(wire: &mut W, kept: &mut Kept) -> Result<Turn, AllocError>
    requires { kept.old.next ≡ Stands.Waits }
    ensures talks { TalksOn (seen kept.old (W.told wire.old)) (seen kept.new (W.told wire.new)) }
    ensures called { CallsOn (seen kept.old (W.told wire.old)) (seen kept.new (W.told wire.new)) }
    ensures stops { IfOk result
        (λ turn. Stops turn (W.told wire.old).waits (W.told wire.new).waits (stage_of kept.new.next)) }
    ensures spent { OnErr result (((W.told wire.new).waits ≡ (W.told wire.old).waits)
        × (kept.new.next ≡ Stands.Spent)) }
    ensures less { IfOk result (λ turn. LeavesLess turn kept.old kept.new) }
    ensures row { IfOk result (λ turn. KeepsRow turn
        (W.told wire.old).in_a_row (W.told wire.new).in_a_row kept.old kept.new) }
    ensures longest { HoldsLongest (stage_of kept.old.next) (stage_of kept.new.next)
        (W.told wire.old) (W.told wire.new) }
    ensures made { unmade kept.new.next ≡ 0 }
{
    kept.stand(Standing::Spent);
    kept.read.reserve(CHUNK)?;
    let mut chunk = [0; CHUNK];
    match wire.try_read(&mut chunk) {
        Ok(Ready::NotYet) => {
            kept.stand(Standing::Waits);
            Ok(Turn::Waits)
        }
        Ok(Ready::Done(0)) => Ok(finish(wire, kept, Ending::Ended)),
        Ok(Ready::Done(count)) => {
            kept.read.extend_from_slice(&chunk[..count]).unwrap();
            go_on(kept, &chunk[..count])?;
            Ok(Turn::GoesOn)
        }
        Err(Failed) => Ok(finish(wire, kept, Ending::ReadFailed)),
    }
}

/// Makes the response of what was said, which goes out then.
fn respond(kept: &mut Kept, close: bool) -> Result<(), AllocError>
    requires { kept.old.next ≡ Stands.Says close }
    ensures made { IsMade close result kept.old kept.new }
{
    kept.stand(Standing::Spent);
    let text = answer_bytes(kept.alloc, &kept.said, close)?;
    kept.send(text, close);
    Ok(())
}

/// The response of what was said: a text, or that there is nothing to say.
fn answer_bytes(alloc: Global, said: &Option<Bytes>, close: bool) -> Result<Bytes, AllocError>
    ensures { IfOk result (λ bytes. bytes ≡ answer_text said.now close) }
{
    match said {
        Some(text) => response_bytes(alloc, OK, text.as_slice(), close),
        None => response_bytes(alloc, NO_CONTENT, &[], close),
    }
}

/// Writes a piece of the text that goes out, if there is room for one, and goes on after it.
fn write_on<W: PollWire>(wire: &mut W, kept: &mut Kept, close: bool) -> Result<Turn, AllocError>
    requires { kept.old.next ≡ Stands.Sends close }
    ensures talks { TalksOn (seen kept.old (W.told wire.old)) (seen kept.new (W.told wire.new)) }
    ensures called { CallsOn (seen kept.old (W.told wire.old)) (seen kept.new (W.told wire.new)) }
    ensures stops { IfOk result
        (λ turn. Stops turn (W.told wire.old).waits (W.told wire.new).waits (stage_of kept.new.next)) }
    ensures spent { OnErr result (((W.told wire.new).waits ≡ (W.told wire.old).waits)
        × (kept.new.next ≡ Stands.Spent)) }
    ensures less { IfOk result (λ turn. LeavesLess turn kept.old kept.new) }
    ensures row { IfOk result (λ turn. KeepsRow turn
        (W.told wire.old).in_a_row (W.told wire.new).in_a_row kept.old kept.new) }
    ensures longest { HoldsLongest (stage_of kept.old.next) (stage_of kept.new.next)
        (W.told wire.old) (W.told wire.new) }
    ensures made { unmade kept.new.next ≡ 0 }
{
    kept.stand(Standing::Spent);
    if kept.due.is_out() {
        // It never is: no text that goes out is empty, and one that is out goes no further.
        return Ok(finish(wire, kept, Ending::Closed));
    }
    let rest = kept.due.left();
    kept.written.reserve(rest.len())?;
    match wire.try_write(rest) {
        Ok(Ready::NotYet) => {
            kept.stand(Standing::Sends { close });
            Ok(Turn::Waits)
        }
        Ok(Ready::Done(count)) => {
            kept.written.extend_from_slice(&rest[..count]).unwrap();
            kept.due.advance(count);
            go_behind(wire, kept, close)
        }
        Err(Failed) => Ok(finish(wire, kept, Ending::WriteFailed)),
    }
}

/// Goes on with the rest of the text that goes out; where all of it is out, closes or takes up what follows.
fn go_behind<W: PollWire>(wire: &mut W, kept: &mut Kept, close: bool) -> Result<Turn, AllocError>
    requires { kept.old.next ≡ Stands.Spent }
    ensures talks { IsOutOn close (seen kept.old (W.told wire.old)) (seen kept.new (W.told wire.new)) }
    ensures calls { (W.told wire.new).wire.calls ≡ (W.told wire.old).wire.calls }
    ensures read { kept.new.read.items ≡ kept.old.read.items }
    ensures written { kept.new.written.items ≡ kept.old.written.items }
    ensures stops { IfOk result
        (λ turn. Stops turn (W.told wire.old).waits (W.told wire.new).waits (stage_of kept.new.next)) }
    ensures spent { OnErr result (((W.told wire.new).waits ≡ (W.told wire.old).waits)
        × (kept.new.next ≡ Stands.Spent)) }
    ensures moves { IfOk result (λ turn. turn ≢ Turns.Waits) }
    ensures rows { SameRows (W.told wire.old) (W.told wire.new) }
    ensures made { unmade kept.new.next ≡ 0 }
{
    if !kept.due.is_out() {
        kept.stand(Standing::Sends { close });
        return Ok(Turn::GoesOn);
    }
    if close {
        return Ok(finish(wire, kept, Ending::Closed));
    }
    go_on(kept, &[])?;
    Ok(Turn::GoesOn)
}

/// Feeds the reader a piece that was read, and takes up what it gives.
fn go_on(kept: &mut Kept, piece: &[u8]) -> Result<(), AllocError>
    requires { kept.old.next ≡ Stands.Spent }
    ensures talks { FollowsOn piece.now kept.old kept.new }
    ensures read { kept.new.read.items ≡ kept.old.read.items }
    ensures written { kept.new.written.items ≡ kept.old.written.items }
    ensures spent { OnErr result (kept.new.next ≡ Stands.Spent) }
    ensures made { unmade kept.new.next ≡ 0 }
{
    let fed = kept.feed(piece)?;
    take_up(kept, fed)
}

/// Goes on by what the reader gave.
fn take_up(kept: &mut Kept, fed: Fed) -> Result<(), AllocError>
    requires { kept.old.next ≡ Stands.Spent }
    ensures talks { TakesUp fed kept.old kept.new }
    ensures read { kept.new.read.items ≡ kept.old.read.items }
    ensures written { kept.new.written.items ≡ kept.old.written.items }
    ensures spent { OnErr result (kept.new.next ≡ Stands.Spent) }
    ensures made { unmade kept.new.next ≡ 0 }
{
    match fed {
        Fed::NotYet => {
            kept.stand(Standing::Waits);
            Ok(())
        }
        Fed::Interim => {
            let text = Bytes::from_slice(kept.alloc, INTERIM)?;
            kept.send(text, false);
            Ok(())
        }
        Fed::Request { body, close } => {
            kept.stand(Standing::Holds { body, close });
            Ok(())
        }
        Fed::Refused(status) => {
            let text = response_bytes(kept.alloc, status, &[], true)?;
            kept.send(text, true);
            Ok(())
        }
    }
}

/// Closes the wire: the connection is over so.
fn finish<W: PollWire>(wire: &mut W, kept: &mut Kept, ending: Ending) -> Turn
    ensures turn { result ≡ Turns.Over }
    ensures finishes { Finishes ending (seen kept.old (W.told wire.old)) (seen kept.new (W.told wire.new)) }
    ensures waits { (W.told wire.new).waits ≡ (W.told wire.old).waits }
    ensures calls { (W.told wire.new).wire.calls ≡ (W.told wire.old).wire.calls }
    ensures ended { (W.told wire.new).wire.ended ≡ (W.told wire.old).wire.ended }
    ensures rows { SameRows (W.told wire.old) (W.told wire.new) }
{
    wire.close();
    kept.stand(Standing::Over(ending));
    Turn::Over
}
