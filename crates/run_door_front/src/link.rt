//! The connections of a run.
ghost use Rattle.std.specs.Prelude.{◌≡◌, None};
ghost use Rattle.outside_polling.specs.Polls.{shut_so};
ghost use Rattle.run_door_front.specs.Keeping.{told_of_wire};

use conn_future::{ConnTask, Traffic};
use jsonrpc_text::Read;
use outside_polling::PollWire;
use std::marker::Model;

/// The request of a connection that has no answer yet: the place of its posting, and what it says.
#[derive(Drop)]
pub(crate) struct PendingReply {
    pub(crate) place: usize,
    pub(crate) read: Read,
}

/// A connection of a run, the service of its door, and the request that is pending an answer, where one is.
#[derive(Drop)]
pub struct Client<W: PollWire + Drop> {
    pub(crate) service: u32,
    pub(crate) task: ConnTask<W>,
    pub(crate) pending: Option<PendingReply>,
}

impl<W: PollWire + Drop> Model for Client<W> {
    ghost use Rattle.conn_future.specs.Talking.{seen};
    ghost use Rattle.std.specs.Coded.{codes};
    ghost use Rattle.jolie_trees.specs.contracts.tree.Tree as tree;
    ghost use Rattle.run_door_front.specs.Keeping.{ClientTold};

    ghost Value = { ClientTold };

    ghost coded = { Prim.hlevel (codes, tree.the_row.coded) };

    ghost view = { λ l. record {
      service = l.service;
      seen = seen l.task.kept (W.told l.task.wire);
      waits = (W.told l.task.wire).waits;
      in_a_row = (W.told l.task.wire).in_a_row;
      longest = (W.told l.task.wire).longest;
      pending = l.pending;
    } };
}

impl<W: PollWire + Drop> Client<W> {
    /// The wire, which is closed, the bytes that were read and the bytes that were written.
    pub fn into_parts(self) -> (W, Vec<u8>, Vec<u8>)
        ensures wire { W.told result.0 ≡ shut_so (told_of_wire self) }
        ensures read { result.1.items ≡ self.seen.kept.read.items }
        ensures written { result.2.items ≡ self.seen.kept.written.items }
    {
        let Client {
            service: _,
            task,
            pending: _,
        } = self;
        let (traffic, wire) = task.into_parts();
        let Traffic { read, written } = traffic;
        (wire, read, written)
    }
}
