ghost use Rattle.std.specs.Prelude.{◌≡◌, ◌++◌, IfOk, OnOk, map, option_map};
ghost use Rattle.std.specs.List.{filter_map};
ghost use Rattle.std.specs.Option.{option_copied};
ghost use Rattle.jolie_ast.specs.declared.name.Name.{Name};
ghost use Rattle.check_base.specs.Files.{Sided, execution_in, execution_of, first_there, init_in, input_port_in, is_concurrent, main_in, output_port_in, port_in, set_in, set_names, variables_of};

use crate::names::Names;
use jolie_ast::{Block, Clause, CorrelationVariable, Execution, Name, Port, Service};
use std::alloc::{AllocError, Global};

/// The name of the port that every service has.
pub const CONSOLE: &str = "Console";

/// A clause, if it is a port.
pub fn port_in(clause: &Clause) -> Option<&Port>
    ensures { option_copied result ≡ option_map (λ (p : Sided). p.port) (port_in clause.now) }
{
    match clause {
        Clause::InputPort(port) => Some(port),
        Clause::OutputPort(port) => Some(port),
        _ => None,
    }
}

/// A clause, if it is an input port.
pub fn input_port_in(clause: &Clause) -> Option<&Port>
    ensures { option_copied result ≡ input_port_in clause.now }
{
    match clause {
        Clause::InputPort(port) => Some(port),
        _ => None,
    }
}

/// A clause, if it is an output port.
pub fn output_port_in(clause: &Clause) -> Option<&Port>
    ensures { option_copied result ≡ output_port_in clause.now }
{
    match clause {
        Clause::OutputPort(port) => Some(port),
        _ => None,
    }
}

/// A clause, if it is a correlation set.
pub fn set_in(clause: &Clause) -> Option<&[CorrelationVariable]>
    ensures { option_copied result ≡ set_in clause.now }
{
    match clause {
        Clause::CorrelationSet { variables, .. } => Some(variables.as_slice()),
        _ => None,
    }
}

/// Whether the sessions of a service run beside each other: one runs alone where nothing is said.
pub fn is_concurrent(service: &Service) -> bool
    ensures { result ≡ is_concurrent (execution_of service.now) }
{
    matches!(
        said_execution(service.clauses.as_slice()),
        Some(Execution::Concurrent)
    )
}

/// How the sessions of a service are run, if it is said.
pub fn said_execution(clauses: &[Clause]) -> Option<Execution>
    ensures { result ≡ first_there (filter_map execution_in clauses.now) }
{
    for clause in clauses {
        if let Some(execution) = execution_in(clause) {
            return Some(execution);
        }
    }
    None
}

/// A clause, if it says how sessions are run.
fn execution_in(clause: &Clause) -> Option<Execution>
    ensures { result ≡ execution_in clause.now }
{
    match clause {
        Clause::Execution { execution, .. } => Some(*execution),
        _ => None,
    }
}

/// What a service does at its start.
#[tactic(auto, using(crate::proofs::FirstFound::found_here, crate::proofs::FirstFound::found_nowhere))]
pub fn init_of(clauses: &[Clause]) -> Option<&Block>
    ensures { option_copied result ≡ first_there (filter_map init_in clauses.now) }
{
    for clause in clauses {
        if let Clause::Init { body, .. } = clause {
            return Some(body);
        }
    }
    None
}

/// What a service does after its start.
#[tactic(auto, using(crate::proofs::FirstFound::found_here, crate::proofs::FirstFound::found_nowhere))]
pub fn main_of(clauses: &[Clause]) -> Option<&Block>
    ensures { option_copied result ≡ first_there (filter_map main_in clauses.now) }
{
    for clause in clauses {
        if let Clause::Main { body, .. } = clause {
            return Some(body);
        }
    }
    None
}

/// Adds the texts of names after the others.
pub fn add_names<'a>(names: &'a [Name], texts: &mut Names<'a>) -> Result<(), AllocError>
    ensures { OnOk result (texts.new ≡ texts.old ++ map (λ (n : Name). n.text) names.now) }
{
    for name in names {
        texts.add(name.text.as_str())?;
    }
    Ok(())
}

/// The names of the variables of a service.
pub fn variables_of(alloc: Global, service: &Service) -> Result<Names<'_>, AllocError>
    ensures { IfOk result (λ names. names ≡ map (λ (n : Name). n.text) (variables_of service.now)) }
{
    let mut names = Names::new(alloc);
    for clause in service.clauses.as_slice() {
        if let Some(set) = set_in(clause) {
            add_variables(set, &mut names)?;
        }
    }
    Ok(names)
}

fn add_variables<'a>(
    set: &'a [CorrelationVariable],
    names: &mut Names<'a>,
) -> Result<(), AllocError>
    ensures { OnOk result (names.new ≡ names.old ++ map (λ (n : Name). n.text) (set_names set.now)) }
{
    for variable in set {
        names.add(variable.name.text.as_str())?;
    }
    Ok(())
}
