ghost use Rattle.std.specs.Prelude.{◌≡◌, Some, map, option_map};
ghost use Rattle.std.specs.Option.{option_copied};
ghost use Rattle.behaviour_tree.specs.Data.{no_type_fields, plain as plain_type};
ghost use Rattle.behaviour_tree.specs.PartsView.{parts_of, throws_view};
ghost use Rattle.behaviour_tree.specs.View.{type_view};
ghost use Rattle.session_calculus.specs.Accepted as spec;

use crate::actor::Actor;
use crate::sent::{Sent, operation_sent};
use behaviour_tree::{Program, RootKind, Throws, TypeDef};
use jolie_trees::Tree;
use message_types::{conforms, widen};
use std::alloc::Global;

/// A value as a type takes it: widened where it conforms, else none.
fn accepted(program: &Program, ty: &TypeDef, mut value: Tree) -> Option<Tree>
    ensures { result ≡ spec.accepted (parts_of program.now).types (Some (type_view ty.now)) value }
{
    if !conforms(&value, ty, program) {
        return None;
    }
    widen(&mut value, ty, program);
    Some(value)
}

/// The type of a root of a kind alone.
fn plain(alloc: Global, kind: RootKind) -> TypeDef
    ensures { type_view result ≡ plain_type kind no_type_fields }
{
    let fields = Vec::new(alloc);
    TypeDef::Plain { kind, fields }
}

/// A value as an operation of a port takes it for a message.
pub fn request_taken(
    alloc: Global,
    actor: Actor<'_>,
    port: u32,
    op: u32,
    value: Tree,
) -> Option<Tree>
    ensures { result ≡ spec.accepted (parts_of actor.entry.program.now).types
        (spec.request_sent (parts_of actor.entry.program.now) actor.entry.service port op) value }
{
    match operation_sent(actor, port, op) {
        None => None,
        Some(Sent::Declared(operation)) => accepted(actor.program, &operation.request, value),
        Some(Sent::Console) => accepted(actor.program, &plain(alloc, RootKind::Any), value),
    }
}

/// A value as an operation of a port takes it for an answer.
pub fn response_taken(
    alloc: Global,
    actor: Actor<'_>,
    port: u32,
    op: u32,
    value: Tree,
) -> Option<Tree>
    ensures { result ≡ spec.accepted (parts_of actor.entry.program.now).types
        (spec.response_sent (parts_of actor.entry.program.now) actor.entry.service port op) value }
{
    match operation_sent(actor, port, op) {
        None => None,
        Some(Sent::Declared(operation)) => match &operation.response {
            None => None,
            Some(response) => accepted(actor.program, response, value),
        },
        Some(Sent::Console) => accepted(actor.program, &plain(alloc, RootKind::Void), value),
    }
}

/// A value as an operation of a port takes it for a fault.
pub fn fault_taken(actor: Actor<'_>, port: u32, op: u32, fault: u32, value: Tree) -> Option<Tree>
    ensures { result ≡ spec.accepted (parts_of actor.entry.program.now).types
        (spec.type_thrown (spec.throws_sent (parts_of actor.entry.program.now) actor.entry.service port op) fault)
        value }
{
    match operation_sent(actor, port, op) {
        None => None,
        Some(Sent::Declared(operation)) => match type_thrown(&operation.throws, fault) {
            None => None,
            Some(ty) => accepted(actor.program, ty, value),
        },
        Some(Sent::Console) => None,
    }
}

/// A value as an operation of the service takes it for its answer.
pub fn reply_taken(actor: Actor<'_>, op: u32, value: Tree) -> Option<Tree>
    ensures { result ≡ spec.accepted (parts_of actor.entry.program.now).types
        (spec.response_of (parts_of actor.entry.program.now) actor.entry.service op) value }
{
    match actor.program.operation(actor.service, op) {
        None => None,
        Some(operation) => match &operation.response {
            None => None,
            Some(response) => accepted(actor.program, response, value),
        },
    }
}

/// The type of the value of a fault among those that an operation may answer.
fn type_thrown(throws: &[Throws], fault: u32) -> Option<&TypeDef>
    ensures { option_map type_view (option_copied result) ≡ spec.type_thrown (map throws_view throws.now) fault }
{
    for thrown in throws {
        if thrown.fault == fault {
            return Some(&thrown.ty);
        }
    }
    None
}
