//! What a connection keeps beside its wire.
ghost use Rattle.std.specs.Prelude.{◌≡◌, [], false, IfOk, MatchResult};
ghost use Rattle.http_port.specs.Feeding.{Open, Feeds};
ghost use Rattle.http_connection.specs.Stages.{is_waiting};
ghost use Rattle.http_connection.specs.Steps.{HandsOut, MayHandOut, MayTell};
ghost use Rattle.http_connection.specs.declared.stage.Standing.TheVariants as Stands;

use crate::stage::Standing;
use http_port::{Fed, HeadReader};
use jolie_trees::Bytes;
use std::alloc::{AllocError, Global};
use std::mem;

/// What a connection keeps: its reader, the bytes that were read and written, and what it does next.
#[derive(Drop)]
pub struct Kept {
    pub(crate) alloc: Global,
    pub(crate) reader: HeadReader,
    pub(crate) read: Vec<u8>,
    pub(crate) written: Vec<u8>,
    pub(crate) next: Standing,
}

impl Kept {
    /// Before anything passed.
    pub(crate) fn new(alloc: Global) -> Kept
        ensures reader { result.reader ≡ Open [] false }
        ensures read { result.read.items ≡ [] }
        ensures written { result.written.items ≡ [] }
        ensures next { result.next ≡ Stands.Waits }
    {
        Kept {
            alloc,
            reader: HeadReader::new(alloc),
            read: Vec::new(alloc),
            written: Vec::new(alloc),
            next: Standing::Waits,
        }
    }

    /// Goes on so.
    pub(crate) fn stand(&mut self, next: Standing)
        ensures next { self.new.next ≡ next }
        ensures reader { self.new.reader ≡ self.old.reader }
        ensures read { self.new.read.items ≡ self.old.read.items }
        ensures written { self.new.written.items ≡ self.old.written.items }
    {
        self.next = next;
    }

    /// Takes out what is next.
    fn begin(&mut self) -> Standing
        ensures result { result ≡ self.old.next }
        ensures next { self.new.next ≡ Stands.Spent }
        ensures reader { self.new.reader ≡ self.old.reader }
        ensures read { self.new.read.items ≡ self.old.read.items }
        ensures written { self.new.written.items ≡ self.old.written.items }
    {
        mem::replace(&mut self.next, Standing::Spent)
    }

    /// Whether more bytes are to be read.
    pub(crate) fn waits(&self) -> bool
        ensures { result ≡ is_waiting self.now.next }
    {
        matches!(self.next, Standing::Waits)
    }

    /// Whether the connection closes with the answer that is owed. Where memory ran out, that is answered again.
    pub(crate) fn owed(&self) -> Result<bool, AllocError>
        requires { MayTell self.now.next }
        ensures { MatchResult result (λ close. self.now.next ≡ Stands.Owes close)
            (λ _. self.now.next ≡ Stands.Spent) }
    {
        match &self.next {
            Standing::Owes { close } => Ok(*close),
            Standing::Spent => Err(AllocError),
            Standing::Waits | Standing::Holds { .. } | Standing::Over(_) => unreachable!(),
        }
    }

    /// Feeds the reader a piece that was read.
    pub(crate) fn feed(&mut self, piece: &[u8]) -> Result<Fed, AllocError>
        ensures gives { IfOk result (λ fed. Feeds self.old.reader piece.now fed self.new.reader) }
        ensures read { self.new.read.items ≡ self.old.read.items }
        ensures written { self.new.written.items ≡ self.old.written.items }
        ensures next { self.new.next ≡ self.old.next }
    {
        self.reader.feed(piece)
    }

    /// Hands out the request that is held, whose answer is owed then; none where the connection is over. Where memory
    /// ran out, that is answered again.
    pub(crate) fn hand_out(&mut self) -> Result<Option<Bytes>, AllocError>
        requires { MayHandOut self.old.next }
        ensures handed { HandsOut self.old.next result self.new.next }
        ensures reader { self.new.reader ≡ self.old.reader }
        ensures read { self.new.read.items ≡ self.old.read.items }
        ensures written { self.new.written.items ≡ self.old.written.items }
    {
        match self.begin() {
            Standing::Holds { body, close } => {
                self.stand(Standing::Owes { close });
                Ok(Some(body))
            }
            Standing::Over(ending) => {
                self.stand(Standing::Over(ending));
                Ok(None)
            }
            Standing::Spent => Err(AllocError),
            Standing::Waits | Standing::Owes { .. } => unreachable!(),
        }
    }
}
