ghost use Rattle.std.specs.Prelude.{◌≡◌, flat_map, map, option_map, IfOk, OnOk};
ghost use Rattle.check_base.specs.Files.{answering, group_operations, operations_in};
ghost use Rattle.service_check.specs.Mentioned.{answer_texts, block_texts, branch_texts, clause_texts, conditional_texts, definition_texts, handler_texts, input_texts, key_texts, names_of, otherwise_texts, process_texts, reply_texts, standard, thrown_by};
ghost use Rattle.service_check.specs.MentionedParts.{fault_text, maybe};
ghost use Rattle.check_base.specs.Repeated.{with_text, with_texts};

use check_base::Names;
use jolie_ast::{
    Answer, Block, Branch, Clause, Definition, Fault, Handler, HandlerKey, If, Input, Interface,
    OperationGroup, Otherwise, Process, Reply, RequestResponse,
};
use std::alloc::{AllocError, Global};

/// The names of a file: the standard ones, and then each other once, in the order of the text.
#[tactic(auto, using(crate::proofs::Mentions::names_taken))]
pub fn names_of<'a>(alloc: Global, file: &'a [Definition]) -> Result<Names<'a>, AllocError>
    ensures { IfOk result (λ names. names ≡ names_of file.now) }
{
    let mut names = Names::new(alloc);
    standard_names(&mut names)?;
    definitions_names(file, &mut names)?;
    Ok(names)
}

/// A text among others, once.
#[tactic(auto, using(check_base::proofs::Firsts::known_text, check_base::proofs::Firsts::new_text))]
pub fn include<'a>(text: &'a str, names: &mut Names<'a>) -> Result<(), AllocError>
    ensures { OnOk result (names.new ≡ with_text names.old text.now) }
{
    if !names.has(text) {
        names.add(text)?;
    }
    Ok(())
}

/// The standard faults, and main.
#[tactic(auto, unfolding(crate::specs::Mentioned::standard))]
fn standard_names(names: &mut Names<'_>) -> Result<(), AllocError>
    ensures { OnOk result (names.new ≡ with_texts names.old standard) }
{
    include("IOException", names)?;
    include("TypeMismatch", names)?;
    include("CorrelationError", names)?;
    include("Refused", names)?;
    include("UndeclaredFault", names)?;
    include("ExprFault", names)?;
    include("HandlerTooLarge", names)?;
    include("StoreTooLarge", names)?;
    include("main", names)
}

fn definitions_names<'a>(file: &'a [Definition], names: &mut Names<'a>) -> Result<(), AllocError>
    ensures { OnOk result (names.new ≡ with_texts names.old (flat_map definition_texts file.now)) }
{
    for definition in file {
        definition_names(definition, names)?;
    }
    Ok(())
}

fn definition_names<'a>(definition: &'a Definition, names: &mut Names<'a>) -> Result<(), AllocError>
    ensures { OnOk result (names.new ≡ with_texts names.old (definition_texts definition.now)) }
{
    match definition {
        Definition::Type(_) => Ok(()),
        Definition::Interface(interface) => interface_names(interface, names),
        Definition::Service(service) => clauses_names(service.clauses.as_slice(), names),
    }
}

/// The faults that the operations of an interface throw.
#[tactic(auto, using(crate::proofs::Mentions::groups_throw))]
fn interface_names<'a>(interface: &'a Interface, names: &mut Names<'a>) -> Result<(), AllocError>
    ensures { OnOk result (names.new ≡ with_texts names.old (flat_map thrown_by (operations_in interface.now))) }
{
    for group in interface.groups.as_slice() {
        group_names(group, names)?;
    }
    Ok(())
}

#[tactic(auto, using(crate::proofs::Mentions::silent_throw))]
fn group_names<'a>(group: &'a OperationGroup, names: &mut Names<'a>) -> Result<(), AllocError>
    ensures { OnOk result (names.new ≡ with_texts names.old (flat_map thrown_by (group_operations group.now))) }
{
    match group {
        OperationGroup::RequestResponse { operations, .. } => {
            answering_names(operations.as_slice(), names)
        }
        OperationGroup::OneWay { .. } => Ok(()),
    }
}

#[tactic(auto, using(crate::proofs::Mentions::answering_throw))]
fn answering_names<'a>(
    operations: &'a [RequestResponse],
    names: &mut Names<'a>,
) -> Result<(), AllocError>
    ensures { OnOk result (names.new ≡ with_texts names.old (flat_map thrown_by (map answering operations.now))) }
{
    for operation in operations {
        fault_names(operation.throws.as_slice(), names)?;
    }
    Ok(())
}

fn fault_names<'a>(faults: &'a [Fault], names: &mut Names<'a>) -> Result<(), AllocError>
    ensures { OnOk result (names.new ≡ with_texts names.old (map fault_text faults.now)) }
{
    for fault in faults {
        include(fault.name.text.as_str(), names)?;
    }
    Ok(())
}

fn clauses_names<'a>(clauses: &'a [Clause], names: &mut Names<'a>) -> Result<(), AllocError>
    ensures { OnOk result (names.new ≡ with_texts names.old (flat_map clause_texts clauses.now)) }
{
    for clause in clauses {
        clause_names(clause, names)?;
    }
    Ok(())
}

fn clause_names<'a>(clause: &'a Clause, names: &mut Names<'a>) -> Result<(), AllocError>
    ensures { OnOk result (names.new ≡ with_texts names.old (clause_texts clause.now)) }
{
    match clause {
        Clause::Init { body, .. } => block_names(body, names),
        Clause::Main { body, .. } => block_names(body, names),
        _ => Ok(()),
    }
}

#[cycle(process)]
#[tactic(auto, using(crate::proofs::Mentions::of_processes))]
fn process_names<'a>(process: &'a Process, names: &mut Names<'a>) -> Result<(), AllocError>
    ensures { OnOk result (names.new ≡ with_texts names.old (process_texts process.now)) }
{
    match process {
        Process::Nothing(_) => Ok(()),
        Process::Assign { .. } => Ok(()),
        Process::Undef { .. } => Ok(()),
        Process::Correlate { .. } => Ok(()),
        Process::If(conditional) => conditional_names(conditional, names),
        Process::While { body, .. } => block_names(body, names),
        Process::For { body, .. } => block_names(body, names),
        Process::Input(input) => input_names(input, names),
        Process::Choice { branches, .. } => branches_names(branches.as_slice(), names),
        Process::Output { answer, .. } => answer_names(answer, names),
        Process::Scope { name, body, .. } => {
            include(name.text.as_str(), names)?;
            block_names(body, names)
        }
        Process::Install { handlers, .. } => handlers_names(handlers.as_slice(), names),
        Process::Throw { fault, .. } => include(fault.text.as_str(), names),
        Process::Compensate { scope, .. } => include(scope.text.as_str(), names),
        Process::InnerHandler(_) => Ok(()),
        Process::Block(block) => block_names(block, names),
        Process::Sequence(statements) => processes_names(statements.as_slice(), names),
        Process::Parallel(members) => processes_names(members.as_slice(), names),
    }
}

#[cycle(process)]
fn processes_names<'a>(processes: &'a [Process], names: &mut Names<'a>) -> Result<(), AllocError>
    ensures { OnOk result (names.new ≡ with_texts names.old (flat_map process_texts processes.now)) }
{
    for process in processes {
        process_names(process, names)?;
    }
    Ok(())
}

#[cycle(process)]
fn block_names<'a>(block: &'a Block, names: &mut Names<'a>) -> Result<(), AllocError>
    ensures { OnOk result (names.new ≡ with_texts names.old (block_texts block.now)) }
{
    match &block.body {
        Some(body) => process_names(body.get(), names),
        None => Ok(()),
    }
}

#[cycle(process)]
#[tactic(auto, using(crate::proofs::Mentions::if_is, crate::proofs::Mentions::with_append))]
fn conditional_names<'a>(conditional: &'a If, names: &mut Names<'a>) -> Result<(), AllocError>
    ensures { OnOk result (names.new ≡ with_texts names.old (conditional_texts conditional.now)) }
{
    block_names(&conditional.body, names)?;
    otherwise_names(&conditional.otherwise, names)
}

#[cycle(process)]
#[tactic(auto, using(crate::proofs::Mentions::no_else_texts, crate::proofs::Mentions::else_if_texts, crate::proofs::Mentions::else_texts))]
fn otherwise_names<'a>(otherwise: &'a Otherwise, names: &mut Names<'a>) -> Result<(), AllocError>
    ensures { OnOk result (names.new ≡ with_texts names.old (otherwise_texts otherwise.now)) }
{
    match otherwise {
        Otherwise::Nothing => Ok(()),
        Otherwise::ElseIf(conditional) => conditional_names(conditional.get(), names),
        Otherwise::Else(block) => block_names(block, names),
    }
}

#[cycle(process)]
fn input_names<'a>(input: &'a Input, names: &mut Names<'a>) -> Result<(), AllocError>
    ensures { OnOk result (names.new ≡ with_texts names.old (input_texts input.now)) }
{
    match &input.reply {
        Some(reply) => reply_names(reply, names),
        None => Ok(()),
    }
}

#[cycle(process)]
#[tactic(auto, using(crate::proofs::Mentions::reply_is))]
fn reply_names<'a>(reply: &'a Reply, names: &mut Names<'a>) -> Result<(), AllocError>
    ensures { OnOk result (names.new ≡ with_texts names.old (reply_texts reply.now)) }
{
    block_names(&reply.body, names)
}

#[cycle(process)]
fn branches_names<'a>(branches: &'a [Branch], names: &mut Names<'a>) -> Result<(), AllocError>
    ensures { OnOk result (names.new ≡ with_texts names.old (flat_map branch_texts branches.now)) }
{
    for branch in branches {
        branch_names(branch, names)?;
    }
    Ok(())
}

#[cycle(process)]
#[tactic(auto, using(crate::proofs::Mentions::branch_is, crate::proofs::Mentions::with_append))]
fn branch_names<'a>(branch: &'a Branch, names: &mut Names<'a>) -> Result<(), AllocError>
    ensures { OnOk result (names.new ≡ with_texts names.old (branch_texts branch.now)) }
{
    input_names(&branch.input, names)?;
    block_names(&branch.after, names)
}

#[cycle(process)]
fn answer_names<'a>(answer: &'a Option<Answer>, names: &mut Names<'a>) -> Result<(), AllocError>
    ensures { OnOk result (names.new ≡ with_texts names.old (maybe (option_map answer_texts answer.now))) }
{
    match answer {
        Some(answer) => awaited_names(answer, names),
        None => Ok(()),
    }
}

#[cycle(process)]
fn awaited_names<'a>(answer: &'a Answer, names: &mut Names<'a>) -> Result<(), AllocError>
    ensures { OnOk result (names.new ≡ with_texts names.old (answer_texts answer.now)) }
{
    match &answer.handlers {
        Some(handlers) => handlers_names(handlers.as_slice(), names),
        None => Ok(()),
    }
}

#[cycle(process)]
fn handlers_names<'a>(handlers: &'a [Handler], names: &mut Names<'a>) -> Result<(), AllocError>
    ensures { OnOk result (names.new ≡ with_texts names.old (flat_map handler_texts handlers.now)) }
{
    for handler in handlers {
        handler_names(handler, names)?;
    }
    Ok(())
}

#[cycle(process)]
#[tactic(auto, using(crate::proofs::Mentions::handler_is, crate::proofs::Mentions::with_append))]
fn handler_names<'a>(handler: &'a Handler, names: &mut Names<'a>) -> Result<(), AllocError>
    ensures { OnOk result (names.new ≡ with_texts names.old (handler_texts handler.now)) }
{
    key_names(&handler.key, names)?;
    process_names(&handler.body, names)
}

fn key_names<'a>(key: &'a HandlerKey, names: &mut Names<'a>) -> Result<(), AllocError>
    ensures { OnOk result (names.new ≡ with_texts names.old (key_texts key.now)) }
{
    match key {
        HandlerKey::This(_) => Ok(()),
        HandlerKey::Named(name) => include(name.text.as_str(), names),
    }
}
