ghost use Rattle.std.specs.Prelude.{◌≡◌, map};
ghost use Rattle.check_base.specs.Least.{joined};
ghost use Rattle.check_processes.specs.InitRules.{assigns, first_place, init_refused, process_place, statements_of};
ghost use Rattle.check_processes.specs.InitParts.{no_assignment, no_assignments};

use check_base::{CheckName, Least};
use jolie_ast::{Block, Process};

/// The statements of init have to be assignments.
pub fn init_refused(body: &Block, least: &mut Least)
    ensures { least.new ≡ joined least.old (init_refused body.now) }
{
    if let Some(process) = &body.body {
        no_assignments_in(process.get(), least);
    }
}

/// The same of the statements of a process.
fn no_assignments_in(process: &Process, least: &mut Least)
    ensures { least.new ≡ joined least.old (no_assignments (statements_of process.now)) }
{
    match process {
        Process::Sequence(statements) => no_assignments(statements.as_slice(), least),
        _ => no_assignment(process, least),
    }
}

fn no_assignments(statements: &[Process], least: &mut Least)
    ensures { least.new ≡ joined least.old (no_assignments statements.now) }
{
    for statement in statements {
        no_assignment(statement, least);
    }
}

/// A statement of init that is no assignment.
fn no_assignment(statement: &Process, least: &mut Least)
    ensures { least.new ≡ joined least.old (no_assignment statement.now) }
{
    let is_wrong = !assigns(statement);
    least.offer_if(
        is_wrong,
        CheckName::InitNotAssignment,
        process_place(statement),
    );
}

fn assigns(process: &Process) -> bool
    ensures { result ≡ assigns process.now }
{
    matches!(process, Process::Assign { .. })
}

/// The place of the first token of a process.
#[cycle(place)]
#[tactic(auto, using(crate::proofs::Places::assign_place, crate::proofs::Places::if_place, crate::proofs::Places::input_place, crate::proofs::Places::output_place, crate::proofs::Places::block_place))]
fn process_place(process: &Process) -> u32
    ensures { result ≡ process_place process.now }
{
    match process {
        Process::Nothing(at) => *at,
        Process::Assign { path, .. } => path.first.name.at,
        Process::Undef { at, .. } => *at,
        Process::Correlate { at, .. } => *at,
        Process::If(conditional) => conditional.at,
        Process::While { at, .. } => *at,
        Process::For { at, .. } => *at,
        Process::Input(input) => input.operation.at,
        Process::Choice { at, .. } => *at,
        Process::Output { operation, .. } => operation.at,
        Process::Scope { at, .. } => *at,
        Process::Install { at, .. } => *at,
        Process::Throw { at, .. } => *at,
        Process::Compensate { at, .. } => *at,
        Process::InnerHandler(at) => *at,
        Process::Block(block) => block.at,
        Process::Sequence(statements) => first_place(statements.as_slice()),
        Process::Parallel(members) => first_place(members.as_slice()),
    }
}

/// The place of the first of several processes.
#[cycle(place)]
fn first_place(processes: &[Process]) -> u32
    ensures { result ≡ first_place (map process_place processes.now) }
{
    match processes {
        [first, ..] => process_place(first),
        [] => 0,
    }
}
