//! A connection, from its first byte until it is over.
ghost use Rattle.std.specs.Prelude.{◌≡◌, ◌++◌, ◌∷◌, [], true, false, List, ℕ, Option, option_copied, IfOk, MatchResult};
ghost use Rattle.http_port.specs.Talk.{answer as answer_text};
ghost use Rattle.http_connection.specs.Stages.{stage_of, is_waiting, MayBeAsked, MayBeTold, IsBehindAsking, IsBehindTelling};
ghost use Rattle.outside_traits.specs.Told.{WireTold};
ghost use Rattle.http_connection.specs.Seen.{seen};
ghost use Rattle.http_connection.specs.Talking.{log, IsTalking, handed};
ghost use Rattle.http_connection.specs.Prompt.{IsPrompt, OnlyWrites};
ghost use Rattle.http_connection.specs.declared.stage.Stage.TheVariants as Stages;
ghost use Rattle.http_connection.specs.declared.stage.Standing.TheVariants as Stands;

use crate::kept::Kept;
use crate::sending::{finish, send};
use crate::stage::{Ending, Stage, Standing};
use crate::turn::{go_on, settle};
use http_port::response_bytes;
use http_port::status::{NO_CONTENT, OK};
use jolie_trees::Bytes;
use outside_traits::Wire;
use std::alloc::{AllocError, Global};

/// A connection over a wire, and what it keeps.
#[derive(Drop)]
pub struct Connection<W> {
    wire: W,
    kept: Kept,
}

impl<W: Wire> Connection<W> {
    /// Before anything passed.
    pub fn new(alloc: Global, wire: W) -> Connection<W>
        ensures wire { result.wire ≡ wire }
        ensures stage { stage_of result.kept.next ≡ Stages.Reads }
        ensures talks { IsTalking
            (W.told wire)
            (seen result.kept (W.told result.wire))
            [] [] }
    {
        Connection {
            wire,
            kept: Kept::new(alloc),
        }
    }

    /// How the connection stands.
    pub fn stage(&self) -> Stage
        ensures { result ≡ stage_of self.now.kept.next }
    {
        self.kept.next.stage()
    }

    /// The bytes that were read.
    pub fn read(&self) -> &[u8]
        ensures { result.now ≡ self.now.kept.read.items }
    {
        self.kept.read.as_slice()
    }

    /// The bytes that were written.
    pub fn written(&self) -> &[u8]
        ensures { result.now ≡ self.now.kept.written.items }
    {
        self.kept.written.as_slice()
    }

    /// Reads on until the next request is whole, and hands out its body; none where no request comes any more. A
    /// request that is whole already is handed out without a call of the wire. After want of memory nothing was handed
    /// out. A connection that was made with an open wire stands as ended only where a read told the end of what comes
    /// in.
    pub fn next_request(&mut self) -> Result<Option<Bytes>, AllocError>
        requires { MayBeAsked (stage_of self.old.kept.next) }
        ensures talks { (first : WireTold) (bodies : List (List ℕ)) (texts : List (Option (List ℕ)))
            → IsTalking first (seen self.old.kept (W.told self.old.wire)) bodies texts
            → MatchResult result
            (λ came. IsTalking first (seen self.new.kept (W.told self.new.wire)) (bodies ++ handed came) texts)
            (λ _. IsTalking first (seen self.new.kept (W.told self.new.wire)) bodies texts) }
        ensures stage { MatchResult result (λ came. IsBehindAsking came (stage_of self.new.kept.next))
            (λ _. stage_of self.new.kept.next ≡ Stages.Spent) }
        ensures held { is_waiting self.old.kept.next ≡ false → self.new.wire ≡ self.old.wire }
        ensures prompt { (first : WireTold) (bodies : List (List ℕ)) (texts : List (Option (List ℕ)))
            → IsTalking first (seen self.old.kept (W.told self.old.wire)) bodies texts
            → IsPrompt (W.told self.old.wire).calls (W.told self.new.wire).calls
            (log self.old.kept.read.items self.old.kept.written.items bodies texts)
            (log self.new.kept.read.items self.new.kept.written.items bodies texts) }
        ensures ended { (first : WireTold) (bodies : List (List ℕ)) (texts : List (Option (List ℕ)))
            → IsTalking first (seen self.old.kept (W.told self.old.wire)) bodies texts
            → first.closed ≡ false → stage_of self.new.kept.next ≡ Stages.Ended
            → (W.told self.new.wire).ended ≡ true }
    {
        if !self.kept.waits() {
            return self.kept.hand_out();
        }
        settle(&mut self.wire, &mut self.kept)?;
        self.kept.hand_out()
    }

    /// Answers the request that was handed out last, with a text or with nothing to say. Where the connection goes on,
    /// all is written then that is due for the bytes that came already: the interim line of the next head, or a
    /// refusal. After want of memory the text counts for nothing.
    pub fn answer(&mut self, text: Option<&[u8]>) -> Result<(), AllocError>
        requires { MayBeTold (stage_of self.old.kept.next) }
        ensures talks { (first : WireTold) (bodies : List (List ℕ)) (texts : List (Option (List ℕ)))
            → IsTalking first (seen self.old.kept (W.told self.old.wire)) bodies texts
            → MatchResult result
            (λ _. IsTalking first (seen self.new.kept (W.told self.new.wire)) bodies
            (texts ++ option_copied text.entry ∷ []))
            (λ _. IsTalking first (seen self.new.kept (W.told self.new.wire)) bodies texts) }
        ensures stage { MatchResult result (λ _. IsBehindTelling (stage_of self.new.kept.next))
            (λ _. stage_of self.new.kept.next ≡ Stages.Spent) }
        ensures read { self.new.kept.read.items ≡ self.old.kept.read.items }
        ensures wrote { OnlyWrites (W.told self.old.wire).calls (W.told self.new.wire).calls
            self.old.kept.written.items self.new.kept.written.items }
    {
        tell(&mut self.wire, &mut self.kept, text)
    }

    /// The wire, the bytes that were read and the bytes that were written.
    pub fn into_parts(self) -> (W, Vec<u8>, Vec<u8>)
        ensures wire { result.0 ≡ self.wire }
        ensures read { result.1 ≡ self.kept.read }
        ensures written { result.2 ≡ self.kept.written }
    {
        let Connection { wire, kept } = self;
        let Kept {
            alloc: _,
            reader: _,
            read,
            written,
            next: _,
        } = kept;
        (wire, read, written)
    }
}

/// Writes the answer that is owed, and closes or goes on. Where memory ran out, that is answered again.
fn tell<W: Wire>(wire: &mut W, kept: &mut Kept, text: Option<&[u8]>) -> Result<(), AllocError>
    requires { MayBeTold (stage_of kept.old.next) }
    ensures talks { (first : WireTold) (bodies : List (List ℕ)) (texts : List (Option (List ℕ)))
        → IsTalking first (seen kept.old (W.told wire.old)) bodies texts
        → MatchResult result
        (λ _. IsTalking first (seen kept.new (W.told wire.new)) bodies (texts ++ option_copied text.entry ∷ []))
        (λ _. IsTalking first (seen kept.new (W.told wire.new)) bodies texts) }
    ensures next { MatchResult result (λ _. IsBehindTelling (stage_of kept.new.next))
        (λ _. kept.new.next ≡ Stands.Spent) }
    ensures read { kept.new.read.items ≡ kept.old.read.items }
    ensures wrote { OnlyWrites (W.told wire.old).calls (W.told wire.new).calls kept.old.written.items
        kept.new.written.items }
{
    let close = kept.owed()?;
    answer_with(wire, kept, text, close)
}

/// Writes the answer with which the connection closes or goes on.
fn answer_with<W: Wire>(
    wire: &mut W,
    kept: &mut Kept,
    text: Option<&[u8]>,
    close: bool,
) -> Result<(), AllocError>
    requires { kept.old.next ≡ Stands.Owes close }
    ensures talks { (first : WireTold) (bodies : List (List ℕ)) (texts : List (Option (List ℕ)))
        → IsTalking first (seen kept.old (W.told wire.old)) bodies texts
        → MatchResult result
        (λ _. IsTalking first (seen kept.new (W.told wire.new)) bodies (texts ++ option_copied text.entry ∷ []))
        (λ _. IsTalking first (seen kept.new (W.told wire.new)) bodies texts) }
    ensures next { MatchResult result (λ _. IsBehindTelling (stage_of kept.new.next))
        (λ _. kept.new.next ≡ Stands.Spent) }
    ensures read { kept.new.read.items ≡ kept.old.read.items }
    ensures wrote { OnlyWrites (W.told wire.old).calls (W.told wire.new).calls kept.old.written.items
        kept.new.written.items }
{
    kept.stand(Standing::Spent);
    let bytes = answer_bytes(kept.alloc, text, close)?;
    let cut = send(wire, kept, bytes.as_slice())?;
    if cut {
        finish(wire, kept, Ending::WriteFailed);
        return Ok(());
    }
    if close {
        finish(wire, kept, Ending::Closed);
        return Ok(());
    }
    go_on(wire, kept, &[])
}

/// The response of a text, or that there is nothing to say.
fn answer_bytes(alloc: Global, text: Option<&[u8]>, close: bool) -> Result<Bytes, AllocError>
    ensures { IfOk result (λ bytes. bytes ≡ answer_text (option_copied text.entry) close) }
{
    match text {
        Some(text) => response_bytes(alloc, OK, text, close),
        None => response_bytes(alloc, NO_CONTENT, &[], close),
    }
}
