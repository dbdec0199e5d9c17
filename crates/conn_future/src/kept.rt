//! What a connection keeps beside its wire.
ghost use Rattle.std.specs.Prelude.{◌≡◌, [], false, None, IfOk};
ghost use Rattle.http_port.specs.Feeding.{Open, Feeds};
ghost use Rattle.conn_future.specs.Stages.{stage_of};
ghost use Rattle.conn_future.specs.Steps.{outgoing, HandsOut, IsSame, Says};
ghost use Rattle.conn_future.specs.declared.stage.Stage.TheVariants as Stages;
ghost use Rattle.conn_future.specs.declared.stage.Standing.TheVariants as Stands;

use crate::due::Due;
use crate::stage::Standing;
use crate::task::Traffic;
use http_port::{Fed, HeadReader};
use jolie_trees::Bytes;
use std::alloc::{AllocError, Global};
use std::mem;

/// What a connection keeps: its reader, the bytes that were read and written, what was said to the request that was
/// handed out last, the text that goes out, and what it does next.
#[derive(Drop)]
pub struct Kept {
    pub(crate) alloc: Global,
    pub(crate) reader: HeadReader,
    pub(crate) read: Vec<u8>,
    pub(crate) written: Vec<u8>,
    pub(crate) said: Option<Bytes>,
    pub(crate) due: Due,
    pub(crate) next: Standing,
}

impl Kept {
    /// Before anything passed.
    pub(crate) fn new(alloc: Global) -> Kept
        ensures reader { result.reader ≡ Open [] false }
        ensures read { result.read.items ≡ [] }
        ensures written { result.written.items ≡ [] }
        ensures next { result.next ≡ Stands.Waits }
    {
        Kept {
            alloc,
            reader: HeadReader::new(alloc),
            read: Vec::new(alloc),
            written: Vec::new(alloc),
            said: None,
            due: Due::nothing(alloc),
            next: Standing::Waits,
        }
    }

    /// Goes on so.
    pub(crate) fn stand(&mut self, next: Standing)
        ensures next { self.new.next ≡ next }
        ensures same { IsSame self.old self.new }
        ensures said { self.new.said ≡ self.old.said }
        ensures due { self.new.due ≡ self.old.due }
    {
        self.next = next;
    }

    /// Has a text go out, with which the connection closes or goes on.
    pub(crate) fn send(&mut self, text: Bytes, close: bool)
        ensures next { self.new.next ≡ Stands.Sends close }
        ensures same { IsSame self.old self.new }
        ensures due { self.new.due ≡ outgoing text }
    {
        self.due = Due::new(text);
        self.next = Standing::Sends { close };
    }

    /// Feeds the reader a piece that was read.
    pub(crate) fn feed(&mut self, piece: &[u8]) -> Result<Fed, AllocError>
        ensures gives { IfOk result (λ fed. Feeds self.old.reader piece.now fed self.new.reader) }
        ensures read { self.new.read.items ≡ self.old.read.items }
        ensures written { self.new.written.items ≡ self.old.written.items }
        ensures next { self.new.next ≡ self.old.next }
    {
        self.reader.feed(piece)
    }

    /// What is said to the request that was handed out last, of which a response is made next.
    pub(crate) fn say(&mut self, said: Option<Bytes>)
        requires { stage_of self.old.next ≡ Stages.Owes }
        ensures next { Says self.old.next self.new.next }
        ensures said { self.new.said ≡ said }
        ensures same { IsSame self.old self.new }
    {
        if let Standing::Owes { close } = &self.next {
            let close = *close;
            self.said = said;
            self.next = Standing::Says { close };
        }
    }

    /// Hands out the request that is held, whose answer is owed then; none where none is.
    pub(crate) fn hand_out(&mut self) -> Option<Bytes>
        ensures handed { HandsOut self.old.next result self.new.next }
        ensures same { IsSame self.old self.new }
        ensures said { self.new.said ≡ self.old.said }
        ensures due { self.new.due ≡ self.old.due }
    {
        match mem::replace(&mut self.next, Standing::Spent) {
            Standing::Holds { body, close } => {
                self.next = Standing::Owes { close };
                return Some(body);
            }
            Standing::Waits => self.next = Standing::Waits,
            Standing::Owes { close } => self.next = Standing::Owes { close },
            Standing::Says { close } => self.next = Standing::Says { close },
            Standing::Sends { close } => self.next = Standing::Sends { close },
            Standing::Over(ending) => self.next = Standing::Over(ending),
            Standing::Spent => {}
        }
        None
    }

    /// Takes out the bytes that passed, so that none are left.
    pub(crate) fn take_traffic(&mut self) -> Traffic
        ensures read { result.read.items ≡ self.old.read.items }
        ensures written { result.written.items ≡ self.old.written.items }
        ensures none_read { self.new.read.items ≡ [] }
        ensures none_written { self.new.written.items ≡ [] }
        ensures next { self.new.next ≡ self.old.next }
    {
        Traffic {
            read: mem::replace(&mut self.read, Vec::new(self.alloc)),
            written: mem::replace(&mut self.written, Vec::new(self.alloc)),
        }
    }
}
