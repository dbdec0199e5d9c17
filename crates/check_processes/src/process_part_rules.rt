ghost use Rattle.std.specs.Prelude.{◌≡◌, [], ◌∷◌, IfOk, flat_map, map};
ghost use Rattle.check_base.specs.Least.{joined};
ghost use Rattle.check_processes.specs.OperationTables.{answers_named};
ghost use Rattle.check_processes.specs.ProcessParts.{branch_operation, handler_name, used_as};
ghost use Rattle.check_processes.specs.ProcessRules.{is_int_literal, key_name, lacks_variable, sends, wrong_if_written, wrong_index, wrong_path, wrong_step};
ghost use Rattle.check_base.specs.Console.{println};

use crate::surroundings::Surroundings;
use check_base::{CONSOLE, CheckName, Least, Mention};
use jolie_ast::{Branch, Expr, ExprForm, Handler, HandlerKey, Name, Path, Step};
use std::alloc::{AllocError, Global};

// ---- operations and variables

/// An operation has to be there, and to answer exactly where an answer is asked for.
pub fn used_as(known: Option<bool>, name: &Name, answers: bool, least: &mut Least)
    ensures { least.new ≡ joined least.old (used_as known name.now answers) }
{
    match known {
        Some(does) => least.offer_if(does != answers, CheckName::WrongKind, name.at),
        None => least.offer(CheckName::UnknownOperation, name.at),
    }
}

/// Whether an operation of Console answers, if it is there.
fn answers_at_console(operation: &str) -> Option<bool>
    ensures { result ≡ answers_named (println ∷ []) operation.now }
{
    if operation == "println" {
        Some(true)
    } else {
        None
    }
}

/// The port of an output has to be there, with an operation that answers exactly where an answer is awaited.
#[tactic(auto, using(crate::proofs::ProcessForms::used_is))]
pub fn sends(
    operation: &Name,
    port: &Name,
    answers: bool,
    surroundings: &Surroundings,
    least: &mut Least,
)
    ensures { least.new ≡ joined least.old (sends surroundings.now operation.now port.now answers) }
{
    let name = operation.text.as_str();
    if port.text.as_str() == CONSOLE {
        return used_as(answers_at_console(name), operation, answers, least);
    }
    match surroundings.outlet(port.text.as_str()) {
        Some(operations) => used_as(operations.answers(name), operation, answers, least),
        None => least.offer(CheckName::UnknownPort, port.at),
    }
}

/// A variable that is set has to be one of the service.
pub fn lacks_variable(at: u32, variable: &Name, surroundings: &Surroundings, least: &mut Least)
    ensures { least.new ≡ joined least.old (lacks_variable surroundings.now at variable.now) }
{
    let is_known = surroundings.has_variable(variable.text.as_str());
    least.offer_if(!is_known, CheckName::Uncorrelated, at);
}

// ---- paths

/// The indices of a path have to be int literals.
#[tactic(auto, using(check_base::proofs::Joined::joined_append))]
fn wrong_path(path: &Path, least: &mut Least)
    ensures { least.new ≡ joined least.old (wrong_path path.now) }
{
    wrong_step(&path.first, least);
    wrong_steps(path.rest.as_slice(), least);
}

fn wrong_steps(steps: &[Step], least: &mut Least)
    ensures { least.new ≡ joined least.old (flat_map wrong_step steps.now) }
{
    for step in steps {
        wrong_step(step, least);
    }
}

fn wrong_step(step: &Step, least: &mut Least)
    ensures { least.new ≡ joined least.old (wrong_step step.now) }
{
    if let Some(index) = &step.index {
        wrong_index(index.get(), least);
    }
}

fn wrong_index(index: &Expr, least: &mut Least)
    ensures { least.new ≡ joined least.old (wrong_index index.now) }
{
    let is_wrong = !is_int_literal(index.form.get());
    least.offer_if(is_wrong, CheckName::WrongKind, index.at);
}

fn is_int_literal(form: &ExprForm) -> bool
    ensures { result ≡ is_int_literal form.now }
{
    matches!(form, ExprForm::Int(value) if *value >= 0)
}

pub fn wrong_if_written(path: &Option<Path>, least: &mut Least)
    ensures { least.new ≡ joined least.old (wrong_if_written path.now) }
{
    if let Some(path) = path {
        wrong_path(path, least);
    }
}

// ---- names

/// The operations of branches.
pub fn branch_operations(alloc: Global, branches: &[Branch]) -> Result<Vec<Mention<'_>>, AllocError>
    ensures { IfOk result (λ operations. operations.items ≡ map branch_operation branches.now) }
{
    let mut operations = Vec::new(alloc);
    for branch in branches {
        operations.push(Mention::name(&branch.input.operation))?;
    }
    Ok(operations)
}

/// The names of handlers.
pub fn handler_names(alloc: Global, handlers: &[Handler]) -> Result<Vec<Mention<'_>>, AllocError>
    ensures { IfOk result (λ names. names.items ≡ map handler_name handlers.now) }
{
    let mut names = Vec::new(alloc);
    for handler in handlers {
        names.push(key_name(&handler.key))?;
    }
    Ok(names)
}

/// What a handler stands under, as a name.
fn key_name(key: &HandlerKey) -> Mention<'_>
    ensures { result ≡ key_name key.now }
{
    match key {
        HandlerKey::This(at) => Mention::new("this", *at),
        HandlerKey::Named(name) => Mention::name(name),
    }
}
