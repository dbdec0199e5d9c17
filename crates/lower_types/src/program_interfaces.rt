ghost use Rattle.std.specs.Prelude.{◌≡◌, [], ◌++◌, flat_map, map, IfOk, OnOk};
ghost use Rattle.std.specs.Option.{option_to_list};
ghost use Rattle.behaviour_tree.specs.PartsView.{interface_view, operation_view, throws_view};
ghost use Rattle.check_base.specs.Files.{answering, group_operations, interface_in, interfaces_of, silent};
ghost use Rattle.lower_types.specs.LoweredInterfaces.{lowered_fault, lowered_interface, lowered_operation};

use crate::program_types::{lowered_data, lowered_type};
use behaviour_tree::{Interface, Operation, Throws};
use check_base::{Names, interface_in, number};
use jolie_ast::{Definition, Fault, OneWay, OperationGroup, RequestResponse};
use std::alloc::{AllocError, Global};

/// The interfaces of a file, in order.
#[tactic(auto, using(check_base::proofs::Loops::each_found))]
pub fn lowered_interfaces(
    alloc: Global,
    file: &[Definition],
    types: &Names<'_>,
    names: &Names<'_>,
) -> Result<Vec<Interface>, AllocError>
    ensures { IfOk result
        (λ v. map interface_view v.items ≡ map (lowered_interface types.now names.now) (interfaces_of file.now)) }
{
    let mut lowered = Vec::new(alloc);
    for definition in file {
        add_interface(alloc, definition, types, names, &mut lowered)?;
    }
    Ok(lowered)
}

/// Adds the interface that a definition is, if it is one.
fn add_interface(
    alloc: Global,
    definition: &Definition,
    types: &Names<'_>,
    names: &Names<'_>,
    lowered: &mut Vec<Interface>,
) -> Result<(), AllocError>
    ensures { OnOk result (map interface_view lowered.new.items ≡ map interface_view lowered.old.items
        ++ map (lowered_interface types.now names.now) (option_to_list (interface_in definition.now))) }
{
    match interface_in(definition) {
        Some(interface) => {
            lowered.push(lowered_interface(alloc, interface, types, names)?)?;
            Ok(())
        }
        None => Ok(()),
    }
}

fn lowered_interface(
    alloc: Global,
    interface: &jolie_ast::Interface,
    types: &Names<'_>,
    names: &Names<'_>,
) -> Result<Interface, AllocError>
    ensures { IfOk result (λ i. interface_view i ≡ lowered_interface types.now names.now interface.now) }
{
    let name = interface.name.text.copied()?;
    Ok(Interface {
        name,
        operations: lowered_operations(alloc, interface.groups.as_slice(), types, names)?,
    })
}

/// The operations of groups, in order.
#[tactic(auto, using(check_base::proofs::Loops::mapped_each))]
fn lowered_operations(
    alloc: Global,
    groups: &[OperationGroup],
    types: &Names<'_>,
    names: &Names<'_>,
) -> Result<Vec<Operation>, AllocError>
    ensures { IfOk result
        (λ v. map operation_view v.items ≡ map (lowered_operation types.now names.now)
        (flat_map group_operations groups.now)) }
{
    let mut operations = Vec::new(alloc);
    for group in groups {
        add_group(alloc, group, types, names, &mut operations)?;
    }
    Ok(operations)
}

/// Adds the operations after one word.
fn add_group(
    alloc: Global,
    group: &OperationGroup,
    types: &Names<'_>,
    names: &Names<'_>,
    lowered: &mut Vec<Operation>,
) -> Result<(), AllocError>
    ensures { OnOk result (map operation_view lowered.new.items ≡ map operation_view lowered.old.items
        ++ map (lowered_operation types.now names.now) (group_operations group.now)) }
{
    match group {
        OperationGroup::RequestResponse { operations, .. } => {
            add_answering(alloc, operations.as_slice(), types, names, lowered)
        }
        OperationGroup::OneWay { operations, .. } => {
            add_silent(alloc, operations.as_slice(), types, names, lowered)
        }
    }
}

/// Adds operations that answer.
#[tactic(auto, using(check_base::proofs::Loops::mapped_twice))]
fn add_answering(
    alloc: Global,
    operations: &[RequestResponse],
    types: &Names<'_>,
    names: &Names<'_>,
    lowered: &mut Vec<Operation>,
) -> Result<(), AllocError>
    ensures { OnOk result (map operation_view lowered.new.items ≡ map operation_view lowered.old.items
        ++ map (lowered_operation types.now names.now) (map answering operations.now)) }
{
    for operation in operations {
        lowered.push(lowered_answering(alloc, operation, types, names)?)?;
    }
    Ok(())
}

/// Adds operations that do not answer.
#[tactic(auto, using(check_base::proofs::Loops::mapped_twice))]
fn add_silent(
    alloc: Global,
    operations: &[OneWay],
    types: &Names<'_>,
    names: &Names<'_>,
    lowered: &mut Vec<Operation>,
) -> Result<(), AllocError>
    ensures { OnOk result (map operation_view lowered.new.items ≡ map operation_view lowered.old.items
        ++ map (lowered_operation types.now names.now) (map silent operations.now)) }
{
    for operation in operations {
        lowered.push(lowered_silent(alloc, operation, types)?)?;
    }
    Ok(())
}

/// An operation that answers.
fn lowered_answering(
    alloc: Global,
    operation: &RequestResponse,
    types: &Names<'_>,
    names: &Names<'_>,
) -> Result<Operation, AllocError>
    ensures { IfOk result (λ o. operation_view o ≡ lowered_operation types.now names.now (answering operation.now)) }
{
    let name = operation.name.text.copied()?;
    let request = lowered_type(alloc, &operation.request, types)?;
    let response = lowered_type(alloc, &operation.response, types)?;
    Ok(Operation {
        name,
        request,
        response: Some(response),
        throws: lowered_throws(alloc, operation.throws.as_slice(), types, names)?,
    })
}

/// An operation that does not answer, and throws nothing.
fn lowered_silent(
    alloc: Global,
    operation: &OneWay,
    types: &Names<'_>,
) -> Result<Operation, AllocError>
    ensures { IfOk result (λ o. operation_view o ≡ lowered_operation types.now [] (silent operation.now)) }
{
    let name = operation.name.text.copied()?;
    Ok(Operation {
        name,
        request: lowered_type(alloc, &operation.request, types)?,
        response: None,
        throws: Vec::new(alloc),
    })
}

/// The faults of an operation.
fn lowered_throws(
    alloc: Global,
    faults: &[Fault],
    types: &Names<'_>,
    names: &Names<'_>,
) -> Result<Vec<Throws>, AllocError>
    ensures { IfOk result (λ v. map throws_view v.items ≡ map (lowered_fault types.now names.now) faults.now) }
{
    let mut lowered = Vec::new(alloc);
    for fault in faults {
        lowered.push(lowered_fault(alloc, fault, types, names)?)?;
    }
    Ok(lowered)
}

fn lowered_fault(
    alloc: Global,
    fault: &Fault,
    types: &Names<'_>,
    names: &Names<'_>,
) -> Result<Throws, AllocError>
    ensures { IfOk result (λ t. throws_view t ≡ lowered_fault types.now names.now fault.now) }
{
    Ok(Throws {
        fault: number(names, fault.name.text.as_str())?,
        ty: lowered_data(alloc, &fault.ty, types)?,
    })
}
