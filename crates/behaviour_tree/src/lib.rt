//! The types of a checked program, and the words that sessions and the office share.
#![tactic(auto)]

mod behaviour;
mod expr;
mod operations;
mod places;
mod program;
mod shape;
pub mod standard;
mod types;
mod words;

pub use behaviour::{Behaviour, Branch, Handler, HandlerKey, Handlers, ReplyPart};
pub use expr::{
    CastKind, CompareOp, Expr, Member, MulOp, MulPart, PathExpr, PathStep, SumOp, SumPart,
};
pub use operations::operation_sent;
pub use places::{in_u32, numbered};
pub use program::{
    Alias, CorrelationSet, Execution, Interface, Operation, Parts, Port, Program, Service,
    SetVariable, Throws,
};
pub use shape::{at_most, behind_names};
pub use types::{Field, RootKind, TypeDef};
pub use words::{Event, Events, Given, Kind, Need, Numbers, Outcome, Reason, Strands};
