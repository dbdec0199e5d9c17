//! A connection, polled by hand from its first byte until it is over.
ghost use Rattle.std.specs.Prelude.{◌≡◌, ◌≢◌, ◌≤◌, ◌++◌, ◌∷◌, [], length, List, ℕ, Option, MatchOption};
ghost use Rattle.outside_traits.specs.Told.{WireTold};
ghost use Rattle.http_connection.specs.Talking.{handed};
ghost use Rattle.conn_future.specs.declared.stage.Stage.TheVariants as Stages;
ghost use Rattle.conn_future.specs.Stages.{stage_of, EndsPoll, IsAnswering, IsAtRest, IsMoving};
ghost use Rattle.conn_future.specs.Talking.{seen, IsTalking, TalksOn, StaysPrompt};
ghost use Rattle.outside_polling.specs.Polls.{once_more, shut_so};

use crate::kept::Kept;
use crate::stage::Stage;
use crate::turn::{Turn, take_turn};
use futures::task::Poll;
use jolie_trees::Bytes;
use outside_polling::PollWire;
use std::alloc::{AllocError, Global};

/// The bytes that passed on a connection: those that were read, and those that were written.
#[derive(Drop)]
pub struct Traffic {
    pub read: Vec<u8>,
    pub written: Vec<u8>,
}

/// A connection over a wire that does not wait, and what it keeps.
#[derive(Drop)]
pub struct ConnTask<W> {
    wire: W,
    kept: Kept,
}

impl<W: PollWire> ConnTask<W> {
    /// Before anything passed.
    pub fn new(alloc: Global, wire: W) -> ConnTask<W>
        ensures wire { result.wire ≡ wire }
        ensures stage { stage_of result.kept.next ≡ Stages.Reads }
        ensures talks { IsTalking (W.told wire).wire (seen result.kept (W.told result.wire)) [] [] }
    {
        ConnTask {
            wire,
            kept: Kept::new(alloc),
        }
    }

    /// How the connection stands.
    pub fn stage(&self) -> Stage
        ensures { result ≡ stage_of self.now.kept.next }
    {
        self.kept.next.stage()
    }

    /// The bytes that were read.
    pub fn read(&self) -> &[u8]
        ensures { result.now ≡ self.now.kept.read.items }
    {
        self.kept.read.as_slice()
    }

    /// The bytes that were written.
    pub fn written(&self) -> &[u8]
        ensures { result.now ≡ self.now.kept.written.items }
    {
        self.kept.written.as_slice()
    }

    /// Reads and writes until the wire can move nothing yet, a request is whole that has no answer yet, or nothing more
    /// passes. After want of memory nothing more passes either.
    pub fn poll(&mut self) -> Poll<Result<(), AllocError>>
        ensures talks { TalksOn
            (seen self.old.kept (W.told self.old.wire))
            (seen self.new.kept (W.told self.new.wire)) }
        ensures prompt { StaysPrompt
            (seen self.old.kept (W.told self.old.wire))
            (seen self.new.kept (W.told self.new.wire)) }
        ensures ends { EndsPoll result
            (W.told self.old.wire).waits
            (W.told self.new.wire).waits
            (stage_of self.new.kept.next) }
        ensures rests { IsAtRest (stage_of self.old.kept.next)
            → (self.new.kept ≡ self.old.kept) × (self.new.wire ≡ self.old.wire) }
        ensures owes { stage_of self.new.kept.next ≡ Stages.Owes → stage_of self.old.kept.next ≡ Stages.Owes }
        // Where no bytes moved, the wire answered once more in a row that it can move nothing yet.
        ensures row { IsMoving (stage_of self.new.kept.next)
            → length self.new.kept.read.items ≡ length self.old.kept.read.items
            → length self.new.kept.written.items ≡ length self.old.kept.written.items
            → (W.told self.new.wire).in_a_row ≡ once_more (W.told self.old.wire).in_a_row }
        ensures longest { (W.told self.old.wire).longest ≤ (W.told self.new.wire).longest }
        // Where a request is whole or a text goes out, its row is no longer than the longest that a write has come to.
        ensures within { (IsAnswering (stage_of self.old.kept.next)
            → (W.told self.old.wire).in_a_row ≤ (W.told self.old.wire).longest)
            → IsAnswering (stage_of self.new.kept.next)
            → (W.told self.new.wire).in_a_row ≤ (W.told self.new.wire).longest }
    {
        loop {
            match take_turn(&mut self.wire, &mut self.kept) {
                Ok(Turn::GoesOn) => {}
                Ok(Turn::Waits) => return Poll::Pending,
                Ok(Turn::Owes) => return Poll::Pending,
                Ok(Turn::Over) => return Poll::Ready(Ok(())),
                Err(AllocError) => return Poll::Ready(Err(AllocError)),
            }
        }
    }

    /// The body of the request that is whole and was not handed out; none where there is none.
    pub fn asked(&mut self) -> Option<Bytes>
        ensures talks { (first : WireTold) (bodies : List (List ℕ)) (texts : List (Option (List ℕ)))
            → IsTalking first (seen self.old.kept (W.told self.old.wire)) bodies texts
            → IsTalking first (seen self.new.kept (W.told self.new.wire)) (bodies ++ handed result) texts }
        ensures stage { MatchOption result
            ((stage_of self.new.kept.next ≡ stage_of self.old.kept.next)
            × (stage_of self.old.kept.next ≢ Stages.Asks))
            (λ _. (stage_of self.old.kept.next ≡ Stages.Asks) × (stage_of self.new.kept.next ≡ Stages.Owes)) }
        ensures wire { self.new.wire ≡ self.old.wire }
    {
        self.kept.hand_out()
    }

    /// What is said to the request that was handed out last: a text, or nothing. It goes out in the polls that follow.
    pub fn give(&mut self, said: Option<Bytes>)
        requires { stage_of self.old.kept.next ≡ Stages.Owes }
        ensures talks { (first : WireTold) (bodies : List (List ℕ)) (texts : List (Option (List ℕ)))
            → IsTalking first (seen self.old.kept (W.told self.old.wire)) bodies texts
            → IsTalking first (seen self.new.kept (W.told self.new.wire)) bodies (texts ++ said ∷ []) }
        ensures stage { stage_of self.new.kept.next ≡ Stages.Writes }
        ensures wire { self.new.wire ≡ self.old.wire }
    {
        self.kept.say(said);
    }

    /// Takes out the bytes that passed, so that none are left.
    pub(crate) fn take_traffic(&mut self) -> Traffic
        ensures read { result.read.items ≡ self.old.kept.read.items }
        ensures written { result.written.items ≡ self.old.kept.written.items }
        ensures none_read { self.new.kept.read.items ≡ [] }
        ensures none_written { self.new.kept.written.items ≡ [] }
        ensures wire { self.new.wire ≡ self.old.wire }
        ensures next { self.new.kept.next ≡ self.old.kept.next }
    {
        self.kept.take_traffic()
    }

    /// The bytes that passed and that the future has not given, and the wire, which is closed.
    pub fn into_parts(self) -> (Traffic, W)
        ensures read { result.0.read.items ≡ self.kept.read.items }
        ensures written { result.0.written.items ≡ self.kept.written.items }
        ensures wire { W.told result.1 ≡ shut_so (W.told self.wire) }
    {
        let ConnTask { mut wire, kept } = self;
        wire.close();
        let Kept {
            alloc: _,
            reader: _,
            read,
            written,
            said: _,
            due: _,
            next: _,
        } = kept;
        (Traffic { read, written }, wire)
    }
}
