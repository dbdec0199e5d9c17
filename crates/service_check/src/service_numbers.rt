ghost use Rattle.std.specs.Prelude.{◌≡◌, ◌++◌, ℕ, List, flat_map, map, IfOk, OnOk};
ghost use Rattle.std.specs.List.{filter_map};
ghost use Rattle.std.specs.Option.{option_to_list};
ghost use Rattle.check_base.specs.Files.{answering, each_once, group_operations, input_port_in, operations_among, operations_in, operations_named, port_in, silent, texts_of};
ghost use Rattle.check_base.specs.Repeated.{with_texts};
ghost use Rattle.lower_processes.specs.Numbers.{numbering_of};
ghost use Rattle.service_check.specs.KeptPorts.{input_operations_among, port_texts, sided};
ghost use Rattle.service_check.specs.Programs.{numbered, numbered_from, numbering};

use crate::mentioned::include;
use crate::sides::SidedPort;
use check_base::{Interfaces, Names, fitting, input_port_in, variables_of};
use jolie_ast::{Clause, Interface, Name, OneWay, OperationGroup, RequestResponse, Service};
use lower_processes::{Numbers, Ports};
use std::alloc::{AllocError, Global};

/// What the processes of a service name by numbers.
pub fn numbers_of<'a>(
    alloc: Global,
    service: &'a Service,
    sides: &[SidedPort<'a>],
    interfaces: &Interfaces<'a>,
) -> Result<Numbers<'a>, AllocError>
    requires { map sided sides.now ≡ filter_map port_in service.now.clauses }
    ensures { IfOk result
        (λ n. (names : List (List ℕ)) → numbering_of n names ≡ numbering interfaces.now names service.now) }
{
    let clauses = service.clauses.as_slice();
    let inputs = input_texts(alloc, clauses, interfaces)?;
    let ports = numbered_ports(alloc, sides, interfaces)?;
    let console = fitting(sides.len())?;
    Ok(Numbers {
        inputs,
        ports,
        console,
        variables: variables_of(alloc, service)?,
    })
}

// ---- output ports

/// The output ports among ports, each by its place.
fn numbered_ports<'a>(
    alloc: Global,
    sides: &[SidedPort<'a>],
    interfaces: &Interfaces<'a>,
) -> Result<Ports<'a>, AllocError>
    ensures { IfOk result (λ ports. ports ≡ numbered_from interfaces.now 0 (map sided sides.now)) }
{
    let mut ports = Ports::new(alloc);
    for (place, side) in sides.iter().enumerate() {
        add_port(alloc, side, place, interfaces, &mut ports)?;
    }
    Ok(ports)
}

/// Adds a port, if it is an output port.
fn add_port<'a>(
    alloc: Global,
    side: &SidedPort<'a>,
    place: usize,
    interfaces: &Interfaces<'a>,
    ports: &mut Ports<'a>,
) -> Result<(), AllocError>
    ensures { OnOk result (ports.new ≡ ports.old ++ numbered interfaces.now place (sided side.now)) }
{
    match side.input {
        true => Ok(()),
        false => {
            let operations = operation_texts(alloc, side.port.interfaces.as_slice(), interfaces)?;
            let number = fitting(place)?;
            ports.add(side.port.name.text.as_str(), number, operations)
        }
    }
}

// ---- operations

/// The operations of interfaces, each once.
#[tactic(auto, using(check_base::proofs::Firsts::once_taken))]
fn operation_texts<'a>(
    alloc: Global,
    interfaces_named: &'a [Name],
    interfaces: &Interfaces<'a>,
) -> Result<Names<'a>, AllocError>
    ensures { IfOk result
        (λ texts. texts ≡ texts_of (each_once (operations_among interfaces.now interfaces_named.now))) }
{
    let mut texts = Names::new(alloc);
    include_interfaces(interfaces_named, interfaces, &mut texts)?;
    Ok(texts)
}

/// The operations of the input ports among clauses, each once.
fn input_texts<'a>(
    alloc: Global,
    clauses: &'a [Clause],
    interfaces: &Interfaces<'a>,
) -> Result<Names<'a>, AllocError>
    ensures { IfOk result
        (λ texts. texts ≡ texts_of (each_once (input_operations_among interfaces.now clauses.now))) }
{
    let mut texts = Names::new(alloc);
    for clause in clauses {
        include_clause(clause, interfaces, &mut texts)?;
    }
    Ok(texts)
}

/// The operations of an input port, if a clause is one.
fn include_clause<'a>(
    clause: &'a Clause,
    interfaces: &Interfaces<'a>,
    texts: &mut Names<'a>,
) -> Result<(), AllocError>
    ensures { OnOk result (texts.new ≡ with_texts texts.old
        (flat_map (port_texts interfaces.now) (option_to_list (input_port_in clause.now)))) }
{
    match input_port_in(clause) {
        Some(port) => include_interfaces(port.interfaces.as_slice(), interfaces, texts),
        None => Ok(()),
    }
}

#[tactic(auto, using(check_base::proofs::Loops::mapped_each))]
fn include_interfaces<'a>(
    names: &'a [Name],
    interfaces: &Interfaces<'a>,
    texts: &mut Names<'a>,
) -> Result<(), AllocError>
    ensures { OnOk result (texts.new ≡ with_texts texts.old (texts_of (operations_among interfaces.now names.now))) }
{
    for name in names {
        include_named(name, interfaces, texts)?;
    }
    Ok(())
}

fn include_named<'a>(
    name: &'a Name,
    interfaces: &Interfaces<'a>,
    texts: &mut Names<'a>,
) -> Result<(), AllocError>
    ensures { OnOk result (texts.new ≡ with_texts texts.old
        (texts_of (operations_named interfaces.now name.now.text))) }
{
    match interfaces.get(name.text.as_str()) {
        Some(interface) => include_operations(interface, texts),
        None => Ok(()),
    }
}

#[tactic(auto, using(check_base::proofs::Loops::mapped_each))]
fn include_operations<'a>(interface: &'a Interface, texts: &mut Names<'a>) -> Result<(), AllocError>
    ensures { OnOk result (texts.new ≡ with_texts texts.old (texts_of (operations_in interface.now))) }
{
    for group in interface.groups.as_slice() {
        include_group(group, texts)?;
    }
    Ok(())
}

fn include_group<'a>(group: &'a OperationGroup, texts: &mut Names<'a>) -> Result<(), AllocError>
    ensures { OnOk result (texts.new ≡ with_texts texts.old (texts_of (group_operations group.now))) }
{
    match group {
        OperationGroup::RequestResponse { operations, .. } => {
            include_answering(operations.as_slice(), texts)
        }
        OperationGroup::OneWay { operations, .. } => include_silent(operations.as_slice(), texts),
    }
}

#[tactic(auto, using(check_base::proofs::Loops::mapped_twice))]
fn include_answering<'a>(
    operations: &'a [RequestResponse],
    texts: &mut Names<'a>,
) -> Result<(), AllocError>
    ensures { OnOk result (texts.new ≡ with_texts texts.old (texts_of (map answering operations.now))) }
{
    for operation in operations {
        include(operation.name.text.as_str(), texts)?;
    }
    Ok(())
}

#[tactic(auto, using(check_base::proofs::Loops::mapped_twice))]
fn include_silent<'a>(operations: &'a [OneWay], texts: &mut Names<'a>) -> Result<(), AllocError>
    ensures { OnOk result (texts.new ≡ with_texts texts.old (texts_of (map silent operations.now))) }
{
    for operation in operations {
        include(operation.name.text.as_str(), texts)?;
    }
    Ok(())
}
