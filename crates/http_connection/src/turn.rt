//! What a connection does for the bytes that come.
ghost use Rattle.std.specs.Prelude.{◌≡◌, ◌<◌, true, false, length, List, ℕ, Option, MatchResult};
ghost use Rattle.http_port.specs.declared.head_reader.Fed.TheVariants as Gives;
ghost use Rattle.http_connection.specs.Stages.{stage_of, is_waiting, IsBehindTelling};
ghost use Rattle.outside_traits.specs.Told.{WireTold};
ghost use Rattle.http_connection.specs.Seen.{seen};
ghost use Rattle.http_connection.specs.Talking.{log, IsTalking};
ghost use Rattle.http_connection.specs.Prompt.{OnlyWrites};
ghost use Rattle.http_connection.specs.Steps.{IsGoing, IsFed, is_interim, is_invited, Called, MayHandOut};
ghost use Rattle.http_connection.specs.declared.stage.Stage.TheVariants as Stages;
ghost use Rattle.http_connection.specs.declared.stage.Standing.TheVariants as Stands;

use crate::kept::Kept;
use crate::sending::{finish, send};
use crate::stage::{Ending, Standing};
use http_port::{Fed, response_bytes};
use outside_traits::{Failed, Wire};
use std::alloc::AllocError;

/// How many bytes are read at once.
const CHUNK: usize = 4096;

/// The interim line.
const INTERIM: &[u8] = b"HTTP/1.1 100 Continue\r\n\r\n";

/// Reads on until the next request is whole, or none comes any more.
pub(crate) fn settle<W: Wire>(wire: &mut W, kept: &mut Kept) -> Result<(), AllocError>
    requires { kept.old.next ≡ Stands.Waits }
    ensures talks { (first : WireTold) (bodies : List (List ℕ)) (texts : List (Option (List ℕ)))
        → IsTalking first (seen kept.old (W.told wire.old)) bodies texts
        → IsTalking first (seen kept.new (W.told wire.new)) bodies texts }
    ensures next { MatchResult result (λ _. MayHandOut kept.new.next) (λ _. kept.new.next ≡ Stands.Spent) }
    ensures called { (first : WireTold) (bodies : List (List ℕ)) (texts : List (Option (List ℕ)))
        → IsTalking first (seen kept.old (W.told wire.old)) bodies texts
        → Called (W.told wire.old).calls (W.told wire.new).calls
        (log kept.old.read.items kept.old.written.items bodies texts)
        (log kept.new.read.items kept.new.written.items bodies texts) }
    ensures ended { (first : WireTold) (bodies : List (List ℕ)) (texts : List (Option (List ℕ)))
        → IsTalking first (seen kept.old (W.told wire.old)) bodies texts
        → first.closed ≡ false → stage_of kept.new.next ≡ Stages.Ended → (W.told wire.new).ended ≡ true }
{
    while kept.waits() {
        read_on(wire, kept)?;
    }
    Ok(())
}

/// Reads a piece and does all that is due for it.
fn read_on<W: Wire>(wire: &mut W, kept: &mut Kept) -> Result<(), AllocError>
    requires { kept.old.next ≡ Stands.Waits }
    ensures talks { (first : WireTold) (bodies : List (List ℕ)) (texts : List (Option (List ℕ)))
        → IsTalking first (seen kept.old (W.told wire.old)) bodies texts
        → IsTalking first (seen kept.new (W.told wire.new)) bodies texts }
    ensures next { MatchResult result (λ _. is_waiting kept.new.next ≡ false → MayHandOut kept.new.next)
        (λ _. kept.new.next ≡ Stands.Spent) }
    ensures further { is_waiting kept.new.next ≡ true → length kept.old.read.items < length kept.new.read.items }
    ensures called { (first : WireTold) (bodies : List (List ℕ)) (texts : List (Option (List ℕ)))
        → IsTalking first (seen kept.old (W.told wire.old)) bodies texts
        → Called (W.told wire.old).calls (W.told wire.new).calls
        (log kept.old.read.items kept.old.written.items bodies texts)
        (log kept.new.read.items kept.new.written.items bodies texts) }
    ensures ended { (first : WireTold) (bodies : List (List ℕ)) (texts : List (Option (List ℕ)))
        → IsTalking first (seen kept.old (W.told wire.old)) bodies texts
        → first.closed ≡ false → stage_of kept.new.next ≡ Stages.Ended → (W.told wire.new).ended ≡ true }
{
    kept.stand(Standing::Spent);
    kept.read.reserve(CHUNK)?;
    let mut chunk = [0; CHUNK];
    match wire.read(&mut chunk) {
        Ok(0) => {
            finish(wire, kept, Ending::Ended);
            Ok(())
        }
        Ok(count) => {
            kept.read.extend_from_slice(&chunk[..count]).unwrap();
            go_on(wire, kept, &chunk[..count])
        }
        Err(Failed) => {
            finish(wire, kept, Ending::ReadFailed);
            Ok(())
        }
    }
}

/// Feeds the reader a piece that was read, and does all that is due then.
pub(crate) fn go_on<W: Wire>(wire: &mut W, kept: &mut Kept, piece: &[u8]) -> Result<(), AllocError>
    requires { kept.old.next ≡ Stands.Spent }
    ensures talks { (first : WireTold) (bodies : List (List ℕ)) (texts : List (Option (List ℕ)))
        → IsGoing first (seen kept.old (W.told wire.old)) piece.now bodies texts
        → IsTalking first (seen kept.new (W.told wire.new)) bodies texts }
    ensures next { MatchResult result (λ _. IsBehindTelling (stage_of kept.new.next))
        (λ _. kept.new.next ≡ Stands.Spent) }
    ensures read { kept.new.read.items ≡ kept.old.read.items }
    ensures wrote { OnlyWrites (W.told wire.old).calls (W.told wire.new).calls kept.old.written.items
        kept.new.written.items }
{
    let fed = kept.feed(piece)?;
    if is_interim(&fed) {
        return invite(wire, kept);
    }
    take_up(wire, kept, fed)
}

/// Whether the interim line is asked for.
fn is_interim(fed: &Fed) -> bool
    ensures { result ≡ is_interim fed.now }
{
    matches!(fed, Fed::Interim)
}

/// Writes the interim line, and goes on with what the reader gives then, which is no second one.
fn invite<W: Wire>(wire: &mut W, kept: &mut Kept) -> Result<(), AllocError>
    requires next { kept.old.next ≡ Stands.Spent }
    requires invited { is_invited kept.old.reader ≡ true }
    ensures talks { (first : WireTold) (bodies : List (List ℕ)) (texts : List (Option (List ℕ)))
        → IsFed first (seen kept.old (W.told wire.old)) Gives.Interim bodies texts
        → IsTalking first (seen kept.new (W.told wire.new)) bodies texts }
    ensures next { MatchResult result (λ _. IsBehindTelling (stage_of kept.new.next))
        (λ _. kept.new.next ≡ Stands.Spent) }
    ensures read { kept.new.read.items ≡ kept.old.read.items }
    ensures wrote { OnlyWrites (W.told wire.old).calls (W.told wire.new).calls kept.old.written.items
        kept.new.written.items }
{
    let cut = send(wire, kept, INTERIM)?;
    if cut {
        finish(wire, kept, Ending::WriteFailed);
        return Ok(());
    }
    let fed = kept.feed(&[])?;
    take_up(wire, kept, fed)
}

/// Goes on by what the reader gave, which is no interim line.
fn take_up<W: Wire>(wire: &mut W, kept: &mut Kept, fed: Fed) -> Result<(), AllocError>
    requires next { kept.old.next ≡ Stands.Spent }
    requires fed { is_interim fed ≡ false }
    ensures talks { (first : WireTold) (bodies : List (List ℕ)) (texts : List (Option (List ℕ)))
        → IsFed first (seen kept.old (W.told wire.old)) fed bodies texts
        → IsTalking first (seen kept.new (W.told wire.new)) bodies texts }
    ensures next { MatchResult result (λ _. IsBehindTelling (stage_of kept.new.next))
        (λ _. kept.new.next ≡ Stands.Spent) }
    ensures read { kept.new.read.items ≡ kept.old.read.items }
    ensures wrote { OnlyWrites (W.told wire.old).calls (W.told wire.new).calls kept.old.written.items
        kept.new.written.items }
{
    match fed {
        Fed::NotYet => {
            kept.stand(Standing::Waits);
            Ok(())
        }
        Fed::Request { body, close } => {
            kept.stand(Standing::Holds { body, close });
            Ok(())
        }
        Fed::Refused(status) => refuse(wire, kept, status),
        Fed::Interim => unreachable!(),
    }
}

/// Writes a refusal, with which the connection closes.
fn refuse<W: Wire>(wire: &mut W, kept: &mut Kept, status: u16) -> Result<(), AllocError>
    requires { kept.old.next ≡ Stands.Spent }
    ensures talks { (first : WireTold) (bodies : List (List ℕ)) (texts : List (Option (List ℕ)))
        → IsFed first (seen kept.old (W.told wire.old)) (Gives.Refused status) bodies texts
        → IsTalking first (seen kept.new (W.told wire.new)) bodies texts }
    ensures next { MatchResult result (λ _. IsBehindTelling (stage_of kept.new.next))
        (λ _. kept.new.next ≡ Stands.Spent) }
    ensures read { kept.new.read.items ≡ kept.old.read.items }
    ensures wrote { OnlyWrites (W.told wire.old).calls (W.told wire.new).calls kept.old.written.items
        kept.new.written.items }
{
    let bytes = response_bytes(kept.alloc, status, &[], true)?;
    let cut = send(wire, kept, bytes.as_slice())?;
    if cut {
        finish(wire, kept, Ending::WriteFailed);
        return Ok(());
    }
    finish(wire, kept, Ending::Closed);
    Ok(())
}
