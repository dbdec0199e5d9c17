//! The tree of a Jolie text.
//!
//! There is one node for each form of the grammar. Each name, string, statement and expression has the place of its
//! first token. A sequence, a parallel or a level of one member is that member, parentheses leave no node, and neither
//! do the optional dots and commas of fields and literals.
#![tactic(auto)]

mod expression;
mod interface;
mod name;
mod print_expression;
mod print_file;
mod print_interface;
mod print_process;
mod print_service;
mod print_type;
mod printer;
mod process;
mod service;
mod tree;
mod types;

pub use expression::{
    Additive, CastTarget, Comparison, Expr, ExprForm, Factor, Member, Multiplicative, Path, Step,
    Term,
};
pub use interface::{Fault, Interface, OneWay, OperationGroup, RequestResponse, TypeName};
pub use name::{Name, Quoted};
pub use print_file::print;
pub use process::{
    Answer, Assignment, Block, Branch, Count, ForStep, Handler, HandlerKey, If, Input, Otherwise,
    Process, Reply,
};
pub use service::{Alias, Clause, CorrelationVariable, Execution, Port, Service};
pub use tree::{Ast, Definition};
pub use types::{Cardinality, DefinedType, Field, RootKind, TypeBody, TypeDefinition};
