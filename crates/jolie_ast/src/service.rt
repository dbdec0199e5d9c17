use crate::name::{Name, Quoted};
use crate::process::Block;
use sqlite_items::Items;

/// How a service runs its sessions.
#[derive(Clone, Copy, Debug, PartialEq, Eq)]
pub enum Execution {
    Concurrent,
    Single,
}

#[derive(Debug, Drop)]
pub struct Port {
    pub at: u32,
    pub name: Name,
    pub location: Quoted,
    pub protocol: Option<Name>,
    pub interfaces: Items<Name>,
}

/// A type and the fields that lead to a variable's value in it.
#[derive(Debug, Drop)]
pub struct Alias {
    pub ty: Name,
    pub first: Name,
    pub rest: Items<Name>,
}

/// A variable of a `cset`.
#[derive(Debug, Drop)]
pub struct CorrelationVariable {
    pub name: Name,
    pub aliases: Items<Alias>,
}

/// A clause of a service, at its first word.
#[derive(Drop)]
pub enum Clause {
    Execution {
        at: u32,
        execution: Execution,
    },
    InputPort(Port),
    OutputPort(Port),
    CorrelationSet {
        at: u32,
        variables: Items<CorrelationVariable>,
    },
    Init {
        at: u32,
        body: Block,
    },
    Main {
        at: u32,
        body: Block,
    },
}

#[derive(Drop)]
pub struct Service {
    pub at: u32,
    pub name: Name,
    pub clauses: Items<Clause>,
}
