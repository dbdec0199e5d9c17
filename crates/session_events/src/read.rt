ghost use Rattle.std.specs.Prelude.{◌≡◌, IfOk};
ghost use Rattle.session_calculus.specs.Answers as spec;
ghost use Rattle.behaviour_tree.specs.Reasons.{code_of};
ghost use Rattle.behaviour_tree.specs.Values.{alone};
ghost use Rattle.behaviour_tree.specs.declared.words.Outcome.TheVariants as outcome;
ghost use Rattle.session_calculus.specs.Names.{refused as refused_name};
ghost use Rattle.jolie_trees.specs.declared.root.Root.TheVariants as root;
ghost use Rattle.session_events.specs.Reads.{call_of, read_view, seen_of};
ghost use Rattle.session_forms.specs.View.{fault_view};

use crate::event::bare;
use behaviour_tree::{Outcome, Reason, standard};
use jolie_trees::{Root, Text, Tree};
use session_forms::Fault;
use session_values::{Actor, fault_taken, number_of, response_taken};
use std::alloc::{AllocError, Global};

/// A call: its number, and the port and operation that it was sent to.
#[derive(Clone, Copy)]
pub struct SentCall {
    pub number: u32,
    pub port: u32,
    pub op: u32,
}

/// What a caller reads in an outcome: a value or a fault.
#[derive(Drop)]
pub enum Read {
    Answered(Tree),
    Faulted(Fault),
}

/// The outcome of a call as its caller reads it.
pub fn read_outcome(
    alloc: Global,
    sent: SentCall,
    outcome: &Outcome,
    actor: Actor<'_>,
) -> Result<Read, AllocError>
    ensures { IfOk result (λ r. read_view r ≡ spec.read (seen_of actor.entry) (call_of sent) outcome.now) }
{
    match outcome {
        Outcome::Value(value) => Ok(read_value(alloc, sent, value.copied()?, actor)),
        Outcome::Fault { name, value } => {
            Ok(Read::Faulted(read_named(alloc, sent, name, value.copied()?, actor)?))
        }
        Outcome::Refused(reason) => Ok(Read::Faulted(read_refusal(alloc, *reason))),
    }
}

/// A value as the answer of a call.
fn read_value(alloc: Global, sent: SentCall, value: Tree, actor: Actor<'_>) -> Read
    ensures { read_view result ≡ spec.read (seen_of actor.entry) (call_of sent) (outcome.Value value) }
{
    match response_taken(alloc, actor, sent.port, sent.op, value) {
        Some(value) => Read::Answered(value),
        None => Read::Faulted(bare(alloc, standard::TYPE_MISMATCH)),
    }
}

/// A fault by its name as the answer of a call.
fn read_named(
    alloc: Global,
    sent: SentCall,
    name: &Text,
    value: Tree,
    actor: Actor<'_>,
) -> Result<Fault, AllocError>
    ensures { IfOk result (λ f. fault_view f ≡ spec.read_named (seen_of actor.entry) (call_of sent) name.now value) }
{
    match number_of(actor.program, name) {
        None => Ok(bare(alloc, standard::UNDECLARED_FAULT)),
        Some(name) => read_fault(alloc, sent, Fault { name, value }, actor),
    }
}

/// A fault by number as the answer of a call: itself where its operation throws it with a value of its type.
fn read_fault(
    alloc: Global,
    sent: SentCall,
    fault: Fault,
    actor: Actor<'_>,
) -> Result<Fault, AllocError>
    ensures { IfOk result
        (λ f. fault_view f ≡ spec.read_fault (seen_of actor.entry) (call_of sent) (fault_view fault)) }
{
    let name = fault.name;
    match fault_taken(actor, sent.port, sent.op, name, fault.value.copied()?) {
        Some(value) => Ok(Fault { name, value }),
        None => Ok(undeclared(alloc, fault)),
    }
}

/// A fault that its operation does not throw, or not with such a value.
fn undeclared(alloc: Global, fault: Fault) -> Fault
    ensures { fault_view result ≡ spec.undeclared (fault_view fault) }
{
    if is_passed(fault.name) {
        fault
    } else {
        bare(alloc, standard::UNDECLARED_FAULT)
    }
}

/// Whether a fault passes as itself though an operation does not throw it.
fn is_passed(fault: u32) -> bool
    ensures { result ≡ spec.is_passed fault }
{
    fault == standard::IO_EXCEPTION
        || fault == standard::TYPE_MISMATCH
        || fault == standard::CORRELATION_ERROR
        || fault == standard::REFUSED
}

/// A refusal as a fault.
fn read_refusal(alloc: Global, reason: Reason) -> Fault
    ensures { fault_view result ≡ spec.read_refusal reason }
{
    match reason {
        Reason::Correlation => bare(alloc, standard::CORRELATION_ERROR),
        Reason::NotConforming => bare(alloc, standard::TYPE_MISMATCH),
        Reason::UnknownOperation | Reason::BoxFull | Reason::RunFull => refused(alloc, reason),
        Reason::Stopped | Reason::SessionEnded | Reason::Other(_) => refused(alloc, reason),
    }
}

/// Refused, with the code as a long.
fn refused(alloc: Global, reason: Reason) -> Fault
    ensures { fault_view result ≡ record { name = refused_name; value = alone (root.Long (code_of reason)) } }
{
    let code = reason.code();
    Fault {
        name: standard::REFUSED,
        value: Tree::of_root(alloc, Root::Long(code)),
    }
}
