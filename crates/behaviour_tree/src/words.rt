ghost use Rattle.std.specs.Prelude.{◌≡◌, IfOk};
ghost use Rattle.behaviour_tree.specs.Reasons.{code_of, message_of};

use jolie_trees::{Root, Text, Tree};
use sqlite_items::Items;
use std::alloc::AllocError;

/// Strands by number.
pub type Strands = Items<u64>;

/// Messages, calls and operations by number.
pub type Numbers = Items<u32>;

/// The events of a session, oldest first.
pub type Events = Items<Event>;

/// Why a message was not taken.
#[derive(Clone, Copy, Debug, PartialEq, Eq)]
pub enum Reason {
    UnknownOperation,
    NotConforming,
    Correlation,
    BoxFull,
    RunFull,
    Stopped,
    SessionEnded,
    /// A refusal by a peer, with its code.
    Other(i64),
}

/// How a request ended.
#[derive(Drop)]
pub enum Outcome {
    Value(Tree),
    Fault { name: Text, value: Tree },
    Refused(Reason),
}

/// What the event of a strand asks of the office.
#[derive(Drop)]
pub enum Need {
    Nothing,
    Take {
        ops: Numbers,
    },
    Answer {
        call: u32,
    },
    Bind {
        variable: u32,
        value: Root,
    },
    Reply {
        message: u32,
        outcome: Outcome,
    },
    Send {
        call: u32,
        port: u32,
        op: u32,
        value: Tree,
        wants: bool,
    },
    Finish,
}

/// What the office gave for an event.
#[derive(Drop)]
pub enum Given {
    Nothing,
    Mail { message: u32, op: u32, value: Tree },
    Answer { outcome: Outcome },
    /// The correlation variable has its value.
    Bound,
    /// The value would complete a key that a live session has, which is told by its number.
    Held(u32),
    /// The variable was written before.
    Fixed,
}

/// The kinds of event.
#[derive(Clone, Copy, Debug, PartialEq, Eq)]
pub enum Kind {
    Local,
    Install,
    Raise,
    Handle,
    EndScope,
    Compensate,
    In,
    Reply,
    Notify,
    Solicit,
    Answer,
    Bind,
    Finish,
}

/// An event. What its kind has nothing for is 0.
#[derive(Clone, Copy, Debug, PartialEq, Eq)]
pub struct Event {
    /// The strand that acted; 0 of Finish.
    pub strand: u64,
    pub kind: Kind,
    /// The message of In and Reply; the call of Notify, Solicit and Answer; of Raise where the fault went, as in
    /// `standard`; of Handle 0 where the handler is that of a fault, and 1 where it is that of a termination.
    pub number: u32,
    /// The branch of In, and the scope of Raise, Handle, EndScope and Compensate.
    pub place: u32,
    /// The fault of Raise, and of Handle where it is the handler of one.
    pub fault: u32,
}

impl Reason {
    /// The code that stands for the reason in an answer.
    pub fn code(&self) -> i64
        ensures { result ≡ code_of self.now }
    {
        match self {
            Reason::UnknownOperation => -32601,
            Reason::NotConforming => -32602,
            Reason::Correlation => -32001,
            Reason::BoxFull => -32002,
            Reason::RunFull => -32003,
            Reason::Stopped => -32004,
            Reason::SessionEnded => -32005,
            Reason::Other(code) => *code,
        }
    }

    /// The text that stands for the reason in an answer.
    pub fn message(&self) -> &'static str
        ensures { result.now ≡ message_of self.now }
    {
        match self {
            Reason::UnknownOperation => "Method not found",
            Reason::NotConforming => "Invalid params",
            Reason::Correlation => "CorrelationError",
            Reason::BoxFull => "box full",
            Reason::RunFull => "run full",
            Reason::Stopped => "stopped",
            Reason::SessionEnded => "session ended",
            Reason::Other(_) => "refused",
        }
    }
}

impl Outcome {
    pub fn copied(&self) -> Result<Outcome, AllocError>
        ensures { IfOk result (λ outcome. outcome ≡ self.now) }
    {
        match self {
            Outcome::Value(value) => Ok(Outcome::Value(value.copied()?)),
            Outcome::Fault { name, value } => Ok(Outcome::Fault {
                name: name.copied()?,
                value: value.copied()?,
            }),
            Outcome::Refused(reason) => Ok(Outcome::Refused(*reason)),
        }
    }
}
