ghost use Rattle.std.specs.Prelude.{◌≡◌, map, option_map, IfOk};
ghost use Rattle.std.specs.Option.{option_copied};
ghost use Rattle.behaviour_tree.specs.View.{behaviour_view, branch_view, handler_view, handlers_of, handlers_view, reply_view};
ghost use Rattle.lower_processes.specs.Behaviours.{alone, branch_after, lowered_answer, lowered_block, lowered_branch, lowered_conditional, lowered_handler, lowered_if_there, lowered_input, lowered_otherwise, lowered_process, lowered_reply, sent};
ghost use Rattle.lower_processes.specs.Expressions.{lowered_if_written};
ghost use Rattle.lower_processes.specs.Numbers.{numbering_of};

use crate::behaviour_parts::{
    bound, boxed_step, boxed_turn, looped, lowered_assignment, lowered_key, lowered_target,
    throwing,
};
use crate::expressions::{lowered_expr, lowered_if_written, lowered_path};
use crate::numbers::{NumberedOperation, Numbers};
use behaviour_tree::{Behaviour, Branch, Handler, Handlers, ReplyPart};
use check_base::{Names, number};
use jolie_ast::{Answer, Block, If, Input, Otherwise, Process, Reply};
use std::alloc::{AllocError, Global};

#[cycle(process)]
pub fn lowered_process(
    alloc: Global,
    process: &Process,
    numbers: &Numbers<'_>,
    names: &Names<'_>,
) -> Result<Behaviour, AllocError>
    ensures { IfOk result (λ p. behaviour_view p ≡ lowered_process (numbering_of numbers.now names.now) process.now) }
{
    match process {
        Process::Nothing(_) => Ok(Behaviour::Nothing),
        Process::Assign { path, assignment } => lowered_assignment(alloc, path, assignment),
        Process::Undef { path, .. } => Ok(Behaviour::Undef {
            path: lowered_path(alloc, path)?,
        }),
        Process::Correlate {
            variable,
            value,
            ..
        } => bound(alloc, variable, value, numbers),
        Process::If(conditional) => lowered_conditional(alloc, conditional, numbers, names),
        Process::While { test, body, .. } => {
            let body = boxed_block(alloc, body, numbers, names)?;
            Ok(Behaviour::While {
                test: lowered_expr(alloc, test)?,
                body,
            })
        }
        Process::For {
            path,
            first,
            test,
            stepped,
            step,
            body,
            ..
        } => {
            let step = boxed_step(alloc, stepped, step)?;
            let body = lowered_block(alloc, body, numbers, names)?;
            let turn = boxed_turn(alloc, body, step)?;
            looped(alloc, path, first, test, turn)
        }
        Process::Input(input) => lowered_alone(alloc, input, numbers, names),
        Process::Choice { branches, .. } => Ok(Behaviour::Choice(lowered_branches(
            alloc,
            branches.as_slice(),
            numbers,
            names,
        )?)),
        Process::Output {
            operation,
            port,
            value,
            answer,
        } => {
            let numbered = numbers.numbered_operation(port.text.as_str(), operation.text.as_str())?;
            lowered_output(alloc, answer, numbered, value, numbers, names)
        }
        Process::Scope { name, body, .. } => {
            let name = number(names, name.text.as_str())?;
            Ok(Behaviour::Scope {
                name,
                body: boxed_block(alloc, body, numbers, names)?,
            })
        }
        Process::Install { handlers, .. } => Ok(Behaviour::Install(lowered_handlers(
            alloc,
            handlers.as_slice(),
            numbers,
            names,
        )?)),
        Process::Throw { fault, value, .. } => throwing(alloc, fault, value, names),
        Process::Compensate { scope, .. } => Ok(Behaviour::Comp(number(
            names,
            scope.text.as_str(),
        )?)),
        Process::InnerHandler(_) => Ok(Behaviour::InnerHandler),
        Process::Block(block) => Ok(Behaviour::Block(boxed_block(alloc, block, numbers, names)?)),
        Process::Sequence(statements) => Ok(Behaviour::Sequence(lowered_processes(
            alloc,
            statements.as_slice(),
            numbers,
            names,
        )?)),
        Process::Parallel(members) => Ok(Behaviour::Parallel(lowered_processes(
            alloc,
            members.as_slice(),
            numbers,
            names,
        )?)),
    }
}

#[cycle(process)]
fn lowered_processes(
    alloc: Global,
    processes: &[Process],
    numbers: &Numbers<'_>,
    names: &Names<'_>,
) -> Result<Vec<Behaviour>, AllocError>
    ensures { IfOk result
        (λ v. map behaviour_view v.items ≡ map (lowered_process (numbering_of numbers.now names.now)) processes.now) }
{
    let mut lowered = Vec::new(alloc);
    for process in processes {
        lowered.push(lowered_process(alloc, process, numbers, names)?)?;
    }
    Ok(lowered)
}

/// The behaviour that a block means.
#[cycle(process)]
pub fn lowered_block(
    alloc: Global,
    block: &Block,
    numbers: &Numbers<'_>,
    names: &Names<'_>,
) -> Result<Behaviour, AllocError>
    ensures { IfOk result (λ p. behaviour_view p ≡ lowered_block (numbering_of numbers.now names.now) block.now) }
{
    match &block.body {
        None => Ok(Behaviour::Nothing),
        Some(body) => lowered_process(alloc, body.get(), numbers, names),
    }
}

#[cycle(process)]
fn boxed_block(
    alloc: Global,
    block: &Block,
    numbers: &Numbers<'_>,
    names: &Names<'_>,
) -> Result<Box<Behaviour>, AllocError>
    ensures { IfOk result
        (λ b. behaviour_view b.value ≡ lowered_block (numbering_of numbers.now names.now) block.now) }
{
    let body = lowered_block(alloc, block, numbers, names)?;
    Ok(Box::new(alloc, body)?)
}

#[cycle(process)]
fn lowered_conditional(
    alloc: Global,
    conditional: &If,
    numbers: &Numbers<'_>,
    names: &Names<'_>,
) -> Result<Behaviour, AllocError>
    ensures { IfOk result
        (λ p. behaviour_view p ≡ lowered_conditional (numbering_of numbers.now names.now) conditional.now) }
{
    let then = boxed_block(alloc, &conditional.body, numbers, names)?;
    let other = lowered_otherwise(alloc, &conditional.otherwise, numbers, names)?;
    Ok(Behaviour::If {
        test: lowered_expr(alloc, &conditional.test)?,
        then,
        other,
    })
}

#[cycle(process)]
fn lowered_otherwise(
    alloc: Global,
    otherwise: &Otherwise,
    numbers: &Numbers<'_>,
    names: &Names<'_>,
) -> Result<Box<Behaviour>, AllocError>
    ensures { IfOk result
        (λ b. behaviour_view b.value ≡ lowered_otherwise (numbering_of numbers.now names.now) otherwise.now) }
{
    match otherwise {
        Otherwise::Nothing => Ok(Box::new(alloc, Behaviour::Nothing)?),
        Otherwise::ElseIf(conditional) => {
            let other = lowered_conditional(alloc, conditional.get(), numbers, names)?;
            Ok(Box::new(alloc, other)?)
        }
        Otherwise::Else(block) => boxed_block(alloc, block, numbers, names),
    }
}

/// An input that stands alone: a choice of one branch.
#[cycle(process)]
fn lowered_alone(
    alloc: Global,
    input: &Input,
    numbers: &Numbers<'_>,
    names: &Names<'_>,
) -> Result<Behaviour, AllocError>
    ensures { IfOk result
        (λ p. behaviour_view p ≡ alone (lowered_input (numbering_of numbers.now names.now) input.now)) }
{
    let nothing = Box::new(alloc, Behaviour::Nothing)?;
    let mut branches = Vec::new(alloc);
    branches.push(lowered_input(alloc, input, nothing, numbers, names)?)?;
    Ok(Behaviour::Choice(branches))
}

#[cycle(process)]
fn lowered_branches(
    alloc: Global,
    branches: &[jolie_ast::Branch],
    numbers: &Numbers<'_>,
    names: &Names<'_>,
) -> Result<Vec<Branch>, AllocError>
    ensures { IfOk result
        (λ v. map branch_view v.items ≡ map (lowered_branch (numbering_of numbers.now names.now)) branches.now) }
{
    let mut lowered = Vec::new(alloc);
    for branch in branches {
        lowered.push(lowered_branch(alloc, branch, numbers, names)?)?;
    }
    Ok(lowered)
}

#[cycle(process)]
fn lowered_branch(
    alloc: Global,
    branch: &jolie_ast::Branch,
    numbers: &Numbers<'_>,
    names: &Names<'_>,
) -> Result<Branch, AllocError>
    ensures { IfOk result (λ b. branch_view b ≡ lowered_branch (numbering_of numbers.now names.now) branch.now) }
{
    let after = boxed_block(alloc, &branch.after, numbers, names)?;
    lowered_input(alloc, &branch.input, after, numbers, names)
}

/// An input before what comes after it.
#[cycle(process)]
fn lowered_input(
    alloc: Global,
    input: &Input,
    after: Box<Behaviour>,
    numbers: &Numbers<'_>,
    names: &Names<'_>,
) -> Result<Branch, AllocError>
    ensures { IfOk result
        (λ b. branch_view b ≡ branch_after (lowered_input (numbering_of numbers.now names.now) input.now)
        (behaviour_view after.value)) }
{
    let op = number(&numbers.inputs, input.operation.text.as_str())?;
    let target = lowered_target(alloc, &input.request)?;
    let reply = lowered_optional_reply(alloc, &input.reply, numbers, names)?;
    Ok(Branch {
        op,
        target,
        reply,
        after: Box::into_inner(after),
    })
}

#[cycle(process)]
fn lowered_optional_reply(
    alloc: Global,
    reply: &Option<Reply>,
    numbers: &Numbers<'_>,
    names: &Names<'_>,
) -> Result<Option<ReplyPart>, AllocError>
    ensures { IfOk result
        (λ r. option_map reply_view r ≡ option_map (lowered_reply (numbering_of numbers.now names.now)) reply.now) }
{
    match reply {
        None => Ok(None),
        Some(reply) => Ok(Some(lowered_reply(alloc, reply, numbers, names)?)),
    }
}

#[cycle(process)]
fn lowered_reply(
    alloc: Global,
    reply: &Reply,
    numbers: &Numbers<'_>,
    names: &Names<'_>,
) -> Result<ReplyPart, AllocError>
    ensures { IfOk result (λ r. reply_view r ≡ lowered_reply (numbering_of numbers.now names.now) reply.now) }
{
    let path = lowered_target(alloc, &reply.path)?;
    Ok(ReplyPart {
        path,
        body: lowered_block(alloc, &reply.body, numbers, names)?,
    })
}

/// An output of a value, and what it awaits if anything.
#[cycle(process)]
fn lowered_output(
    alloc: Global,
    answer: &Option<Answer>,
    operation: NumberedOperation,
    value: &Option<jolie_ast::Expr>,
    numbers: &Numbers<'_>,
    names: &Names<'_>,
) -> Result<Behaviour, AllocError>
    ensures { IfOk result
        (λ p. behaviour_view p ≡ sent operation.port operation.op (lowered_if_written value.now)
        (option_map (lowered_answer (numbering_of numbers.now names.now)) answer.now)) }
{
    match answer {
        None => Ok(Behaviour::Notify {
            port: operation.port,
            op: operation.op,
            value: lowered_if_written(alloc, value)?,
        }),
        Some(answer) => {
            let target = lowered_target(alloc, &answer.path)?;
            let handlers = answer_handlers(alloc, answer, numbers, names)?;
            Ok(Behaviour::Solicit {
                port: operation.port,
                op: operation.op,
                value: lowered_if_written(alloc, value)?,
                target,
                handlers,
            })
        }
    }
}

#[cycle(process)]
fn answer_handlers(
    alloc: Global,
    answer: &Answer,
    numbers: &Numbers<'_>,
    names: &Names<'_>,
) -> Result<Handlers, AllocError>
    ensures { IfOk result
        (λ h. handlers_view h ≡ (lowered_answer (numbering_of numbers.now names.now) answer.now).handlers) }
{
    match &answer.handlers {
        None => Ok(Handlers {
            list: Vec::new(alloc),
        }),
        Some(handlers) => lowered_handlers(alloc, handlers.as_slice(), numbers, names),
    }
}

#[cycle(process)]
fn lowered_handlers(
    alloc: Global,
    handlers: &[jolie_ast::Handler],
    numbers: &Numbers<'_>,
    names: &Names<'_>,
) -> Result<Handlers, AllocError>
    ensures { IfOk result
        (λ h. handlers_view h ≡ handlers_of
        (map (lowered_handler (numbering_of numbers.now names.now)) handlers.now)) }
{
    let mut list = Vec::new(alloc);
    for handler in handlers {
        list.push(lowered_handler(alloc, handler, numbers, names)?)?;
    }
    Ok(Handlers { list })
}

#[cycle(process)]
fn lowered_handler(
    alloc: Global,
    handler: &jolie_ast::Handler,
    numbers: &Numbers<'_>,
    names: &Names<'_>,
) -> Result<Handler, AllocError>
    ensures { IfOk result (λ h. handler_view h ≡ lowered_handler (numbering_of numbers.now names.now) handler.now) }
{
    let key = lowered_key(&handler.key, names)?;
    Ok(Handler {
        key,
        body: lowered_process(alloc, &handler.body, numbers, names)?,
    })
}

/// The behaviour of a block that may be missing.
#[tactic(auto, using(crate::proofs::SeenBehaviours::nothing_seen))]
pub fn lowered_if_there(
    alloc: Global,
    block: Option<&Block>,
    numbers: &Numbers<'_>,
    names: &Names<'_>,
) -> Result<Behaviour, AllocError>
    ensures { IfOk result
        (λ p. behaviour_view p ≡ lowered_if_there (numbering_of numbers.now names.now) (option_copied block.entry)) }
{
    match block {
        None => Ok(Behaviour::Nothing),
        Some(block) => lowered_block(alloc, block, numbers, names),
    }
}
