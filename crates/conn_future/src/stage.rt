//! How a connection stands.
ghost use Rattle.std.specs.Prelude.{◌≡◌};
ghost use Rattle.conn_future.specs.Stages.{stage_behind, stage_of};

use jolie_trees::Bytes;

/// How a connection stands, as its user sees it.
#[derive(Clone, Copy, Debug, PartialEq, Eq)]
pub enum Stage {
    /// It reads on until a request is whole.
    Reads,
    /// A request is whole, and is handed out next.
    Asks,
    /// The request that was handed out last has no answer yet.
    Owes,
    /// A text goes out, of which not all was written yet.
    Writes,
    /// No more bytes came, and the wire is closed.
    Ended,
    /// What was written last closes the connection, and the wire is closed.
    Closed,
    /// A read failed, and the wire is closed.
    ReadFailed,
    /// A write failed, and the wire is closed.
    WriteFailed,
    /// Memory ran out.
    Spent,
}

/// How a connection is over.
#[derive(Clone, Copy)]
pub(crate) enum Ending {
    /// No more bytes came.
    Ended,
    /// What was written last closes the connection.
    Closed,
    /// A read failed.
    ReadFailed,
    /// A write failed.
    WriteFailed,
}

/// What a connection does next.
#[derive(Drop)]
pub(crate) enum Standing {
    /// It reads more bytes: all that is due for those that came was written.
    Waits,
    /// It hands this request out, which is whole.
    Holds { body: Bytes, close: bool },
    /// Nothing until it is told the answer of the request that was handed out, with which it closes or goes on.
    Owes { close: bool },
    /// It makes the response of what was said, with which it closes or goes on.
    Says { close: bool },
    /// It writes the text that goes out, with which it closes or goes on.
    Sends { close: bool },
    /// Nothing: it is over, and its wire is closed.
    Over(Ending),
    /// Nothing: memory ran out.
    Spent,
}

impl Standing {
    pub(crate) fn stage(&self) -> Stage
        ensures { result ≡ stage_of self.now }
    {
        match self {
            Standing::Waits => Stage::Reads,
            Standing::Holds { .. } => Stage::Asks,
            Standing::Owes { .. } => Stage::Owes,
            Standing::Says { .. } => Stage::Writes,
            Standing::Sends { .. } => Stage::Writes,
            Standing::Over(ending) => ending.stage(),
            Standing::Spent => Stage::Spent,
        }
    }
}

impl Ending {
    fn stage(self) -> Stage
        ensures { result ≡ stage_behind self }
    {
        match self {
            Ending::Ended => Stage::Ended,
            Ending::Closed => Stage::Closed,
            Ending::ReadFailed => Stage::ReadFailed,
            Ending::WriteFailed => Stage::WriteFailed,
        }
    }
}
