ghost use Rattle.std.specs.Prelude.{◌≡◌, ◌++◌, IfOk, OnOk, flat_map, option_map};
ghost use Rattle.std.specs.List.{list_any};
ghost use Rattle.service_check.specs.Clauses.{second_among, seconds_among, some_lost};
ghost use Rattle.check_processes.specs.FirstInputParts.{operations_of};
ghost use Rattle.check_processes.specs.Surroundings.{surroundings};
ghost use Rattle.check_base.specs.Least.{joined};
ghost use Rattle.service_check.specs.ServiceRules.{clause_refused, execution_place, init_place, is_among, is_lost, main_place, names_if_there, no_start, service_refused, starting, uncorrelated};

use check_base::{CheckName, Interfaces, Least, Names, Types, is_concurrent, main_of};
use check_ports::{ports_refused, sets_refused, types_in_sets};
use check_processes::{
    Declared, FirstInput, Operations, Surroundings, block_refused, first_input, init_refused,
};
use jolie_ast::{Clause, Service, TypeName};
use std::alloc::{AllocError, Global};

/// What is refused of a service of a file with these types, interfaces and locations of input ports.
pub fn service_refused<'a>(
    alloc: Global,
    types: &Types,
    interfaces: &Interfaces<'a>,
    locations: &Names,
    service: &'a Service,
    least: &mut Least,
) -> Result<(), AllocError>
    ensures { OnOk result (least.new ≡ joined least.old
        (service_refused types.now interfaces.now locations.now service.now)) }
{
    seconds_refused(service.clauses.as_slice(), least);
    ports_refused(alloc, interfaces, locations, service, least)?;
    sets_refused(alloc, types, service, least)?;
    sessions_refused(alloc, interfaces, service, least)?;
    no_start(service, least);
    Ok(())
}

/// What is refused of the processes of a service, and that an input of it reaches no session.
fn sessions_refused<'a>(
    alloc: Global,
    interfaces: &Interfaces<'a>,
    service: &'a Service,
    least: &mut Least,
) -> Result<(), AllocError>
    ensures { OnOk result (least.new ≡ joined least.old
        (flat_map (clause_refused (surroundings interfaces.now service.now)) service.now.clauses
        ++ uncorrelated interfaces.now service.now)) }
{
    let surroundings = Surroundings::of_service(alloc, interfaces, service)?;
    clauses_refused(alloc, &surroundings, service.clauses.as_slice(), least)?;
    uncorrelated(alloc, surroundings.inputs(), service, least)?;
    Ok(())
}

/// How sessions are run is said once at most, and there are one init and one main at most.
#[tactic(auto, using(check_base::proofs::Joined::joined_append))]
fn seconds_refused(clauses: &[Clause], least: &mut Least)
    ensures { least.new ≡ joined least.old (seconds_among clauses.now) }
{
    second_execution(clauses, least);
    second_init(clauses, least);
    second_main(clauses, least);
}

fn second_execution(clauses: &[Clause], least: &mut Least)
    ensures { least.new ≡ joined least.old (second_among execution_place clauses.now) }
{
    for at in clauses.iter().filter_map(execution_place).skip(1) {
        least.offer(CheckName::DuplicateName, at);
    }
}

fn second_init(clauses: &[Clause], least: &mut Least)
    ensures { least.new ≡ joined least.old (second_among init_place clauses.now) }
{
    for at in clauses.iter().filter_map(init_place).skip(1) {
        least.offer(CheckName::DuplicateName, at);
    }
}

fn second_main(clauses: &[Clause], least: &mut Least)
    ensures { least.new ≡ joined least.old (second_among main_place clauses.now) }
{
    for at in clauses.iter().filter_map(main_place).skip(1) {
        least.offer(CheckName::DuplicateName, at);
    }
}

fn execution_place(clause: &Clause) -> Option<u32>
    ensures { result ≡ execution_place clause.now }
{
    match clause {
        Clause::Execution { at, .. } => Some(*at),
        _ => None,
    }
}

fn init_place(clause: &Clause) -> Option<u32>
    ensures { result ≡ init_place clause.now }
{
    match clause {
        Clause::Init { at, .. } => Some(*at),
        _ => None,
    }
}

fn main_place(clause: &Clause) -> Option<u32>
    ensures { result ≡ main_place clause.now }
{
    match clause {
        Clause::Main { at, .. } => Some(*at),
        _ => None,
    }
}

/// What is refused of the processes of clauses.
fn clauses_refused(
    alloc: Global,
    surroundings: &Surroundings,
    clauses: &[Clause],
    least: &mut Least,
) -> Result<(), AllocError>
    ensures { OnOk result (least.new ≡ joined least.old (flat_map (clause_refused surroundings.now) clauses.now)) }
{
    for clause in clauses {
        clause_refused(alloc, surroundings, clause, least)?;
    }
    Ok(())
}

/// What is refused of the processes of a clause.
#[tactic(auto, using(check_base::proofs::Joined::joined_append))]
fn clause_refused(
    alloc: Global,
    surroundings: &Surroundings,
    clause: &Clause,
    least: &mut Least,
) -> Result<(), AllocError>
    ensures { OnOk result (least.new ≡ joined least.old (clause_refused surroundings.now clause.now)) }
{
    match clause {
        Clause::Init { body, .. } => {
            block_refused(body, alloc, surroundings, least)?;
            init_refused(body, least);
            Ok(())
        }
        Clause::Main { body, .. } => block_refused(body, alloc, surroundings, least),
        _ => Ok(()),
    }
}

/// The first input of main, whose operations start a session.
fn starting(service: &Service) -> Option<FirstInput<'_>>
    ensures { option_map operations_of result ≡ starting service.now }
{
    match main_of(service.clauses.as_slice()) {
        Some(body) => first_input(body),
        None => None,
    }
}

/// The names of the operations that start a session.
fn starting_names(alloc: Global, service: &Service) -> Result<Names<'_>, AllocError>
    ensures { IfOk result (λ names. names ≡ names_if_there (starting service.now)) }
{
    match starting(service) {
        Some(first) => first.names(alloc),
        None => Ok(Names::new(alloc)),
    }
}

/// Where sessions run beside each other, each input operation has to start one or to have a request of a type of a
/// correlation set.
fn uncorrelated(
    alloc: Global,
    inputs: &Operations,
    service: &Service,
    least: &mut Least,
) -> Result<(), AllocError>
    ensures { OnOk result (least.new ≡ joined least.old (some_lost inputs.now service.now)) }
{
    if !is_concurrent(service) {
        return Ok(());
    }
    let starts = starting_names(alloc, service)?;
    let types = types_in_sets(alloc, service)?;
    let loses = any_lost(&starts, &types, inputs.as_slice());
    least.offer_if(loses, CheckName::Uncorrelated, service.at);
    Ok(())
}

fn any_lost(starts: &Names, types: &Names, inputs: &[Declared]) -> bool
    ensures { result ≡ list_any (is_lost starts.now types.now) inputs.now }
{
    inputs
        .iter()
        .any(|operation| is_lost(starts, types, operation))
}

/// An operation that starts no session and whose request is of no type of a set.
fn is_lost(starts: &Names, types: &Names, operation: &Declared) -> bool
    ensures { result ≡ is_lost starts.now types.now operation.now }
{
    !starts.has(operation.name()) && !is_among(types, operation.request())
}

fn is_among(types: &Names, ty: &TypeName) -> bool
    ensures { result ≡ is_among types.now ty.now }
{
    match ty {
        TypeName::Named(name) => types.has(name.text.as_str()),
        TypeName::Root { .. } => false,
        TypeName::Undefined(_) => false,
    }
}

/// A service has a main, and one whose sessions run beside each other has a main with a first input.
#[tactic(auto, using(check_base::proofs::Joined::joined_append))]
fn no_start(service: &Service, least: &mut Least)
    ensures { least.new ≡ joined least.old (no_start service.now) }
{
    let has_main = main_of(service.clauses.as_slice()).is_some();
    least.offer_if(!has_main, CheckName::NoStart, service.at);
    let starts_nothing = is_concurrent(service) && starting(service).is_none();
    least.offer_if(starts_nothing, CheckName::NoStart, service.at);
}
