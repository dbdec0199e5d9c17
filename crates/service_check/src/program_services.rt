ghost use Rattle.std.specs.Prelude.{◌≡◌, ◌++◌, ◌∷◌, map, IfOk, OnOk};
ghost use Rattle.std.specs.List.{filter_map};
ghost use Rattle.std.specs.Option.{option_copied, option_to_list};
ghost use Rattle.behaviour_tree.specs.View.{behaviour_view};
ghost use Rattle.lower_processes.specs.Behaviours.{lowered_if_there};
ghost use Rattle.lower_processes.specs.Numbers.{numbering_of};
ghost use Rattle.behaviour_tree.specs.PartsView.{alias_view, port_view, service_view, set_view, variable_view};
ghost use Rattle.check_base.specs.Files.{first_there, init_in, main_in, place_in, port_in, service_in, services_of, set_in};
ghost use Rattle.service_check.specs.KeptPorts.{said_execution, sided, texts_in};
ghost use Rattle.service_check.specs.Programs.{lowered_alias, lowered_execution, lowered_port_part, lowered_service, lowered_set, lowered_variable, numbering};

use crate::service_numbers::numbers_of;
use crate::sides::{SidedPort, ports_of};
use behaviour_tree::{Alias, Behaviour, CorrelationSet, Execution, Port, Service, SetVariable};
use check_base::{Interfaces, Names, init_of, main_of, number, said_execution, service_in, set_in};
use jolie_ast::{Block, Clause, CorrelationVariable, Definition, Name};
use jolie_trees::Text;
use lower_processes::{Numbers, lowered_if_there};
use std::alloc::{AllocError, Global};

/// The services of a file, in order.
#[tactic(auto, using(check_base::proofs::Loops::each_found))]
pub fn lowered_services<'a>(
    alloc: Global,
    file: &'a [Definition],
    interfaces: &Interfaces<'a>,
    types: &Names<'_>,
    names: &Names<'_>,
) -> Result<Vec<Service>, AllocError>
    ensures { IfOk result
        (λ v. map service_view v.items ≡ map (lowered_service interfaces.now types.now names.now)
        (services_of file.now)) }
{
    let mut lowered = Vec::new(alloc);
    for definition in file {
        add_service(alloc, definition, interfaces, types, names, &mut lowered)?;
    }
    Ok(lowered)
}

/// Adds the service that a definition is, if it is one.
fn add_service<'a>(
    alloc: Global,
    definition: &'a Definition,
    interfaces: &Interfaces<'a>,
    types: &Names<'_>,
    names: &Names<'_>,
    lowered: &mut Vec<Service>,
) -> Result<(), AllocError>
    ensures { OnOk result (map service_view lowered.new.items ≡ map service_view lowered.old.items
        ++ map (lowered_service interfaces.now types.now names.now) (option_to_list (service_in definition.now))) }
{
    match service_in(definition) {
        Some(service) => {
            lowered.push(lowered_service(alloc, service, interfaces, types, names)?)?;
            Ok(())
        }
        None => Ok(()),
    }
}

fn lowered_service<'a>(
    alloc: Global,
    service: &'a jolie_ast::Service,
    interfaces: &Interfaces<'a>,
    types: &Names<'_>,
    names: &Names<'_>,
) -> Result<Service, AllocError>
    ensures { IfOk result (λ s. service_view s ≡ lowered_service interfaces.now types.now names.now service.now) }
{
    let clauses = service.clauses.as_slice();
    let name = service.name.text.copied()?;
    let ports = ports_among(alloc, clauses, interfaces.names())?;
    let sets = lowered_sets(alloc, clauses, types)?;
    let behaviours = behaviours_of(alloc, service, interfaces, names)?;
    Ok(Service {
        name,
        execution: execution_of(clauses),
        ports,
        sets,
        init: Box::into_inner(behaviours.init),
        main: Box::into_inner(behaviours.main),
    })
}

/// What a service does first, and what each of its sessions does.
#[derive(Drop)]
struct Behaviours {
    init: Box<Behaviour>,
    main: Box<Behaviour>,
}

fn behaviours_of<'a>(
    alloc: Global,
    service: &'a jolie_ast::Service,
    interfaces: &Interfaces<'a>,
    names: &Names<'_>,
) -> Result<Behaviours, AllocError>
    ensures init { IfOk result
        (λ b. behaviour_view b.init.value
        ≡ lowered_if_there (numbering interfaces.now names.now service.now)
        (first_there (filter_map init_in service.now.clauses))) }
    ensures main { IfOk result
        (λ b. behaviour_view b.main.value
        ≡ lowered_if_there (numbering interfaces.now names.now service.now)
        (first_there (filter_map main_in service.now.clauses))) }
{
    let clauses = service.clauses.as_slice();
    let sides = ports_of(alloc, clauses)?;
    let numbers = numbers_of(alloc, service, sides.as_slice(), interfaces)?;
    numbered_behaviours(alloc, clauses, &numbers, names)
}

/// The same of the clauses of a service whose numbers are at hand.
fn numbered_behaviours(
    alloc: Global,
    clauses: &[Clause],
    numbers: &Numbers<'_>,
    names: &Names<'_>,
) -> Result<Behaviours, AllocError>
    ensures init { IfOk result
        (λ b. behaviour_view b.init.value
        ≡ lowered_if_there (numbering_of numbers.now names.now) (first_there (filter_map init_in clauses.now))) }
    ensures main { IfOk result
        (λ b. behaviour_view b.main.value
        ≡ lowered_if_there (numbering_of numbers.now names.now) (first_there (filter_map main_in clauses.now))) }
{
    let init = boxed_if_there(alloc, init_of(clauses), numbers, names)?;
    Ok(Behaviours {
        init,
        main: boxed_if_there(alloc, main_of(clauses), numbers, names)?,
    })
}

/// The behaviour of a block that may be missing.
fn boxed_if_there(
    alloc: Global,
    block: Option<&Block>,
    numbers: &Numbers<'_>,
    names: &Names<'_>,
) -> Result<Box<Behaviour>, AllocError>
    ensures { IfOk result
        (λ b. behaviour_view b.value ≡ lowered_if_there (numbering_of numbers.now names.now)
        (option_copied block.entry)) }
{
    let behaviour = lowered_if_there(alloc, block, numbers, names)?;
    Ok(Box::new(alloc, behaviour)?)
}

// ---- clauses

/// How the sessions are run: one alone where nothing is said.
fn execution_of(clauses: &[Clause]) -> Execution
    ensures { result ≡ lowered_execution (said_execution clauses.now) }
{
    match said_execution(clauses) {
        Some(execution) => lowered_execution(execution),
        None => Execution::Single,
    }
}

fn lowered_execution(execution: jolie_ast::Execution) -> Execution
    ensures { result ≡ lowered_execution execution }
{
    match execution {
        jolie_ast::Execution::Concurrent => Execution::Concurrent,
        jolie_ast::Execution::Single => Execution::Single,
    }
}

// ---- ports

/// The ports among the clauses of a service, with their interfaces by number.
fn ports_among(
    alloc: Global,
    clauses: &[Clause],
    interfaces: &Names<'_>,
) -> Result<Vec<Port>, AllocError>
    ensures { IfOk result
        (λ v. map port_view v.items ≡ map (lowered_port_part interfaces.now) (filter_map port_in clauses.now)) }
{
    let sides = ports_of(alloc, clauses)?;
    lowered_ports(alloc, sides.as_slice(), interfaces)
}

/// Ports with their interfaces by number.
#[tactic(auto, using(check_base::proofs::Loops::mapped_twice))]
fn lowered_ports(
    alloc: Global,
    sides: &[SidedPort<'_>],
    interfaces: &Names<'_>,
) -> Result<Vec<Port>, AllocError>
    ensures { IfOk result
        (λ v. map port_view v.items ≡ map (lowered_port_part interfaces.now) (map sided sides.now)) }
{
    let mut lowered = Vec::new(alloc);
    for side in sides {
        lowered.push(lowered_port(alloc, side, interfaces)?)?;
    }
    Ok(lowered)
}

fn lowered_port(
    alloc: Global,
    side: &SidedPort<'_>,
    interfaces: &Names<'_>,
) -> Result<Port, AllocError>
    ensures { IfOk result (λ p. port_view p ≡ lowered_port_part interfaces.now (sided side.now)) }
{
    let port = side.port;
    let name = port.name.text.copied()?;
    let location = port.location.text.copied()?;
    Ok(Port {
        name,
        input: side.input,
        location,
        interfaces: places_in(alloc, port.interfaces.as_slice(), interfaces)?,
    })
}

/// The places of names among texts.
fn places_in(alloc: Global, names: &[Name], among: &Names<'_>) -> Result<Vec<u32>, AllocError>
    ensures { IfOk result (λ v. v.items ≡ map (place_in among.now) (texts_in names.now)) }
{
    let mut places = Vec::new(alloc);
    for name in names {
        places.push(number(among, name.text.as_str())?)?;
    }
    Ok(places)
}

// ---- sets

/// The correlation sets of a service.
#[tactic(auto, using(check_base::proofs::Loops::each_found))]
fn lowered_sets(
    alloc: Global,
    clauses: &[Clause],
    types: &Names<'_>,
) -> Result<Vec<CorrelationSet>, AllocError>
    ensures { IfOk result (λ v. map set_view v.items ≡ map (lowered_set types.now) (filter_map set_in clauses.now)) }
{
    let mut lowered = Vec::new(alloc);
    for clause in clauses {
        add_set(alloc, clause, types, &mut lowered)?;
    }
    Ok(lowered)
}

/// Adds the correlation set that a clause is, if it is one.
fn add_set(
    alloc: Global,
    clause: &Clause,
    types: &Names<'_>,
    lowered: &mut Vec<CorrelationSet>,
) -> Result<(), AllocError>
    ensures { OnOk result (map set_view lowered.new.items ≡ map set_view lowered.old.items
        ++ map (lowered_set types.now) (option_to_list (set_in clause.now))) }
{
    match set_in(clause) {
        Some(set) => {
            let variables = lowered_variables(alloc, set, types)?;
            lowered.push(CorrelationSet { variables })?;
            Ok(())
        }
        None => Ok(()),
    }
}

fn lowered_variables(
    alloc: Global,
    variables: &[CorrelationVariable],
    types: &Names<'_>,
) -> Result<Vec<SetVariable>, AllocError>
    ensures { IfOk result (λ v. map variable_view v.items ≡ map (lowered_variable types.now) variables.now) }
{
    let mut lowered = Vec::new(alloc);
    for variable in variables {
        lowered.push(lowered_variable(alloc, variable, types)?)?;
    }
    Ok(lowered)
}

fn lowered_variable(
    alloc: Global,
    variable: &CorrelationVariable,
    types: &Names<'_>,
) -> Result<SetVariable, AllocError>
    ensures { IfOk result (λ v. variable_view v ≡ lowered_variable types.now variable.now) }
{
    let name = variable.name.text.copied()?;
    Ok(SetVariable {
        name,
        aliases: lowered_aliases(alloc, variable.aliases.as_slice(), types)?,
    })
}

fn lowered_aliases(
    alloc: Global,
    aliases: &[jolie_ast::Alias],
    types: &Names<'_>,
) -> Result<Vec<Alias>, AllocError>
    ensures { IfOk result (λ v. map alias_view v.items ≡ map (lowered_alias types.now) aliases.now) }
{
    let mut lowered = Vec::new(alloc);
    for alias in aliases {
        lowered.push(lowered_alias(alloc, alias, types)?)?;
    }
    Ok(lowered)
}

fn lowered_alias(
    alloc: Global,
    alias: &jolie_ast::Alias,
    types: &Names<'_>,
) -> Result<Alias, AllocError>
    ensures { IfOk result (λ a. alias_view a ≡ lowered_alias types.now alias.now) }
{
    let ty = number(types, alias.ty.text.as_str())?;
    Ok(Alias {
        ty,
        path: alias_path(alloc, alias)?,
    })
}

/// The fields that lead to a value.
fn alias_path(alloc: Global, alias: &jolie_ast::Alias) -> Result<Vec<Text>, AllocError>
    ensures { IfOk result (λ v. v.items ≡ texts_in (alias.now.first ∷ alias.now.rest)) }
{
    let mut path = Vec::new(alloc);
    path.push(alias.first.text.copied()?)?;
    for name in alias.rest.as_slice() {
        path.push(name.text.copied()?)?;
    }
    Ok(path)
}
