ghost use Rattle.std.specs.Prelude.{◌≡◌, OnOk, IfOk, flat_map, map};
ghost use Rattle.jolie_ast.specs.declared.interface.Fault.{Fault};
ghost use Rattle.check_base.specs.Least.{joined};
ghost use Rattle.check_types.specs.InterfaceRules.{answering_refused, fault_refused, group_refused, interface_refused, silent_refused, unknown_if_written};

use crate::type_rules::unknown_type_name;
use check_base::{Least, Mention, Types, repeated_refused};
use jolie_ast::{Fault, Interface, OneWay, OperationGroup, RequestResponse, TypeName};
use std::alloc::{AllocError, Global};

/// What is refused of an interface by itself.
#[tactic(auto, using(crate::proofs::Operations::each_group))]
pub fn interface_refused(
    alloc: Global,
    types: &Types,
    interface: &Interface,
    least: &mut Least,
) -> Result<(), AllocError>
    ensures { OnOk result (least.new ≡ joined least.old (interface_refused types.now interface.now)) }
{
    groups_refused(alloc, types, interface.groups.as_slice(), least)
}

fn groups_refused(
    alloc: Global,
    types: &Types,
    groups: &[OperationGroup],
    least: &mut Least,
) -> Result<(), AllocError>
    ensures { OnOk result (least.new ≡ joined least.old (flat_map (group_refused types.now) groups.now)) }
{
    for group in groups {
        group_refused(alloc, types, group, least)?;
    }
    Ok(())
}

/// What is refused of the operations after one word.
#[tactic(auto, using(crate::proofs::Operations::each_answering, crate::proofs::Operations::each_silent))]
fn group_refused(
    alloc: Global,
    types: &Types,
    group: &OperationGroup,
    least: &mut Least,
) -> Result<(), AllocError>
    ensures { OnOk result (least.new ≡ joined least.old (group_refused types.now group.now)) }
{
    match group {
        OperationGroup::RequestResponse { operations, .. } => all_answering_refused(
            alloc,
            types,
            operations.as_slice(),
            least,
        ),
        OperationGroup::OneWay { operations, .. } => {
            all_silent_refused(types, operations.as_slice(), least);
            Ok(())
        }
    }
}

fn all_answering_refused(
    alloc: Global,
    types: &Types,
    operations: &[RequestResponse],
    least: &mut Least,
) -> Result<(), AllocError>
    ensures { OnOk result (least.new ≡ joined least.old (flat_map (answering_refused types.now) operations.now)) }
{
    for operation in operations {
        answering_refused(alloc, types, operation, least)?;
    }
    Ok(())
}

/// Types that are not there, and a fault that stands a second time.
#[tactic(auto, using(check_base::proofs::Joined::joined_append))]
fn answering_refused(
    alloc: Global,
    types: &Types,
    operation: &RequestResponse,
    least: &mut Least,
) -> Result<(), AllocError>
    ensures { OnOk result (least.new ≡ joined least.old (answering_refused types.now operation.now)) }
{
    unknown_type_name(types, &operation.request, least);
    unknown_type_name(types, &operation.response, least);
    faults_refused(types, operation.throws.as_slice(), least);
    let names = fault_names(alloc, operation.throws.as_slice())?;
    repeated_refused(alloc, names.as_slice(), least)
}

fn faults_refused(types: &Types, faults: &[Fault], least: &mut Least)
    ensures { least.new ≡ joined least.old (flat_map (fault_refused types.now) faults.now) }
{
    for fault in faults {
        unknown_if_written(types, &fault.ty, least);
    }
}

fn unknown_if_written(types: &Types, ty: &Option<TypeName>, least: &mut Least)
    ensures { least.new ≡ joined least.old (unknown_if_written types.now ty.now) }
{
    if let Some(ty) = ty {
        unknown_type_name(types, ty, least);
    }
}

/// The names of faults.
fn fault_names(alloc: Global, faults: &[Fault]) -> Result<Vec<Mention<'_>>, AllocError>
    ensures { IfOk result (λ names. names.items ≡ map (λ (f : Fault). f.name) faults.now) }
{
    let mut names = Vec::new(alloc);
    for fault in faults {
        names.push(Mention::name(&fault.name))?;
    }
    Ok(names)
}

fn all_silent_refused(types: &Types, operations: &[OneWay], least: &mut Least)
    ensures { least.new ≡ joined least.old (flat_map (silent_refused types.now) operations.now) }
{
    for operation in operations {
        silent_refused(types, operation, least);
    }
}

#[tactic(auto, using(crate::proofs::Operations::silent_is))]
fn silent_refused(types: &Types, operation: &OneWay, least: &mut Least)
    ensures { least.new ≡ joined least.old (silent_refused types.now operation.now) }
{
    unknown_type_name(types, &operation.request, least);
}
