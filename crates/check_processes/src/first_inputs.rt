ghost use Rattle.std.specs.Prelude.{◌≡◌, IfOk, map, option_map};
ghost use Rattle.jolie_ast.specs.declared.name.Name.{Name};
ghost use Rattle.check_processes.specs.FirstInputParts.{beginning, operations_of};
ghost use Rattle.check_processes.specs.ProcessParts.{branch_operation};
ghost use Rattle.check_processes.specs.FirstInputs.{first_input, of_sequence};

use check_base::Names;
use jolie_ast::{Block, Branch, Input, Process};
use std::alloc::{AllocError, Global};

/// An input that stands alone, or the branches of a choice.
#[derive(Clone, Copy)]
enum Form<'a> {
    Alone(&'a Input),
    Choice(&'a [Branch]),
}

/// The first input of a process, of which the names of its operations are told and not its form.
#[derive(Clone, Copy)]
pub struct FirstInput<'a> {
    form: Form<'a>,
}

impl<'a> FirstInput<'a> {
    /// The names of its operations.
    pub fn names(self, alloc: Global) -> Result<Names<'a>, AllocError>
        ensures { IfOk result (λ names. names ≡ map (λ (n : Name). n.text) (operations_of self.entry)) }
    {
        let mut names = Names::new(alloc);
        match self.form {
            Form::Alone(input) => {
                names.add(input.operation.text.as_str())?;
                Ok(names)
            }
            Form::Choice(branches) => names_of_branches(alloc, branches),
        }
    }
}

/// The names of the operations of branches.
fn names_of_branches(alloc: Global, branches: &[Branch]) -> Result<Names<'_>, AllocError>
    ensures { IfOk result (λ names. names ≡ map (λ (n : Name). n.text) (map branch_operation branches.now)) }
{
    let mut names = Names::new(alloc);
    for branch in branches {
        names.add(branch.input.operation.text.as_str())?;
    }
    Ok(names)
}

/// The first input of what stands between braces: that of its first statement that is no install.
#[cycle(first_input)]
#[tactic(auto, using(crate::proofs::Beginnings::block_begins))]
pub fn first_input(block: &Block) -> Option<FirstInput<'_>>
    ensures { option_map operations_of result ≡ first_input block.now }
{
    match &block.body {
        Some(process) => first_input_of(process.get()),
        None => None,
    }
}

#[cycle(first_input)]
#[tactic(auto, using(crate::proofs::Beginnings::input_begins, crate::proofs::Beginnings::choice_begins))]
fn first_input_of(process: &Process) -> Option<FirstInput<'_>>
    ensures { option_map operations_of result ≡ (beginning process.now).operations }
{
    match process {
        Process::Input(input) => Some(FirstInput {
            form: Form::Alone(input),
        }),
        Process::Choice { branches, .. } => Some(FirstInput {
            form: Form::Choice(branches.as_slice()),
        }),
        Process::Sequence(statements) => first_input_of_sequence(statements.as_slice()),
        Process::Scope { body, .. } => first_input(body),
        Process::Block(block) => first_input(block),
        Process::Nothing(_) => None,
        Process::Assign { .. } => None,
        Process::Undef { .. } => None,
        Process::Correlate { .. } => None,
        Process::If(_) => None,
        Process::While { .. } => None,
        Process::For { .. } => None,
        Process::Output { .. } => None,
        Process::Install { .. } => None,
        Process::Throw { .. } => None,
        Process::Compensate { .. } => None,
        Process::InnerHandler(_) => None,
        Process::Parallel(_) => None,
    }
}

/// The first input of the first statement that is no install.
#[cycle(first_input)]
#[tactic(auto, using(crate::proofs::Beginnings::sequence_later, crate::proofs::Beginnings::sequence_here, crate::proofs::Beginnings::sequence_nowhere))]
fn first_input_of_sequence(statements: &[Process]) -> Option<FirstInput<'_>>
    ensures { option_map operations_of result ≡ of_sequence (map beginning statements.now) }
{
    for statement in statements {
        if !installs(statement) {
            return first_input_of(statement);
        }
    }
    None
}

#[tactic(auto, using(crate::proofs::Beginnings::install_installs, crate::proofs::Beginnings::other_installs))]
fn installs(process: &Process) -> bool
    ensures { result ≡ (beginning process.now).installs }
{
    matches!(process, Process::Install { .. })
}
