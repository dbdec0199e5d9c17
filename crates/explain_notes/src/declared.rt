//! The faults that a file's operations and the language have.

ghost use Rattle.std.specs.Prelude.{◌≡◌, [], ◌∷◌, ◌++◌, IfOk, OnOk, codes, map};
ghost use Rattle.check_base.specs.Files.{answering, group_operations, operations_in};
ghost use Rattle.explain_notes.specs.Notes as spec;

use crate::facts::Facts;
use crate::kind::NoteKind;
use check_base::{Names, interface_in};
use jolie_ast::{Definition, Fault, Interface, OperationGroup, RequestResponse};
use std::alloc::{AllocError, Global};

/// The faults of the operations of a file.
pub fn declared_faults(alloc: Global, file: &[Definition]) -> Result<Names<'_>, AllocError>
    ensures { IfOk result (λ names. names ≡ spec.declared_faults file.now) }
{
    let mut names = Names::new(alloc);
    for definition in file {
        if let Some(interface) = interface_in(definition) {
            add_interface(interface, &mut names)?;
        }
    }
    Ok(names)
}

fn add_interface<'a>(interface: &'a Interface, names: &mut Names<'a>) -> Result<(), AllocError>
    ensures { OnOk result (names.new ≡ names.old ++ spec.faults_of (operations_in interface.now)) }
{
    for group in interface.groups.as_slice() {
        add_group(group, names)?;
    }
    Ok(())
}

fn add_group<'a>(group: &'a OperationGroup, names: &mut Names<'a>) -> Result<(), AllocError>
    ensures { OnOk result (names.new ≡ names.old ++ spec.faults_of (group_operations group.now)) }
{
    match group {
        OperationGroup::RequestResponse { operations, .. } => {
            add_operations(operations.as_slice(), names)
        }
        OperationGroup::OneWay { .. } => Ok(()),
    }
}

fn add_operations<'a>(
    operations: &'a [RequestResponse],
    names: &mut Names<'a>,
) -> Result<(), AllocError>
    ensures { OnOk result (names.new ≡ names.old ++ spec.faults_of (map answering operations.now)) }
{
    for operation in operations {
        add_faults(operation.throws.as_slice(), names)?;
    }
    Ok(())
}

fn add_faults<'a>(faults: &'a [Fault], names: &mut Names<'a>) -> Result<(), AllocError>
    ensures { OnOk result (names.new ≡ names.old ++ spec.fault_names faults.now) }
{
    for fault in faults {
        names.add(fault.name.text.as_str())?;
    }
    Ok(())
}

/// The texts of other names, each again.
fn same_names<'a>(alloc: Global, names: &Names<'a>) -> Result<Names<'a>, AllocError>
    ensures { IfOk result (λ same. same ≡ names.now) }
{
    let mut same = Names::new(alloc);
    for text in names.texts() {
        same.add(*text)?;
    }
    Ok(same)
}

/// The faults of the operations of a file, and those that the language throws.
fn all_faults<'a>(alloc: Global, declared: &Names<'a>) -> Result<Names<'a>, AllocError>
    ensures { IfOk result (λ names. names ≡ declared.now ++ spec.standard_faults) }
{
    let mut names = same_names(alloc, declared)?;
    add_standard(&mut names)?;
    Ok(names)
}

/// Adds the faults that the language throws.
#[tactic(auto, using(crate::proofs::Turns::behind_two))]
fn add_standard(names: &mut Names<'_>) -> Result<(), AllocError>
    ensures { OnOk result (names.new ≡ names.old ++ spec.standard_faults) }
{
    add_faults_of_calls(names)?;
    add_faults_of_statements(names)
}

/// Adds the faults that calls come back with.
fn add_faults_of_calls(names: &mut Names<'_>) -> Result<(), AllocError>
    ensures { OnOk result (names.new ≡ names.old
        ++ codes "IOException" ∷ codes "TypeMismatch" ∷ codes "CorrelationError" ∷ codes "Refused" ∷ codes
        "UndeclaredFault" ∷ []) }
{
    names.add("IOException")?;
    names.add("TypeMismatch")?;
    names.add("CorrelationError")?;
    names.add("Refused")?;
    names.add("UndeclaredFault")?;
    Ok(())
}

/// Adds the faults of a session's own statements.
fn add_faults_of_statements(names: &mut Names<'_>) -> Result<(), AllocError>
    ensures { OnOk result (names.new ≡ names.old
        ++ codes "ExprFault" ∷ codes "HandlerTooLarge" ∷ codes "StoreTooLarge" ∷ []) }
{
    names.add("ExprFault")?;
    names.add("HandlerTooLarge")?;
    names.add("StoreTooLarge")?;
    Ok(())
}

/// The texts that meet a name of a kind in a file of these facts, whatever is mentioned.
#[tactic(auto, using(crate::proofs::ByKind::met_by_no_text))]
pub fn texts_met<'a>(
    alloc: Global,
    kind: NoteKind,
    facts: &Facts<'a>,
) -> Result<Names<'a>, AllocError>
    ensures { IfOk result (λ names. names ≡ spec.texts_met facts.now kind) }
{
    match kind {
        NoteKind::Uncaught => same_names(alloc, facts.faults()),
        NoteKind::UncaughtInLoop => same_names(alloc, facts.faults()),
        NoteKind::Unthrown => all_faults(alloc, facts.faults()),
        NoteKind::OwnSocket => same_names(alloc, facts.sockets()),
        NoteKind::Unset => outermost(alloc),
        NoteKind::NotShared => shared_elsewhere(alloc),
        _ => Ok(Names::new(alloc)),
    }
}

/// The outermost scope, whose faults stand below its name.
fn outermost<'a>(alloc: Global) -> Result<Names<'a>, AllocError>
    ensures { IfOk result (λ names. names ≡ codes "main" ∷ []) }
{
    let mut names = Names::new(alloc);
    names.add("main")?;
    Ok(names)
}

/// The variable that sessions share in another Jolie.
fn shared_elsewhere<'a>(alloc: Global) -> Result<Names<'a>, AllocError>
    ensures { IfOk result (λ names. names ≡ codes "global" ∷ []) }
{
    let mut names = Names::new(alloc);
    names.add("global")?;
    Ok(names)
}
