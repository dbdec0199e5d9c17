ghost use Rattle.std.specs.Prelude.{◌≡◌, option_map, IfOk};
ghost use Rattle.behaviour_tree.specs.Data.{assign, bind, copy, repeat, throw};
ghost use Rattle.behaviour_tree.specs.View.{behaviour_view, expr_view, path_view};
ghost use Rattle.lower_processes.specs.Behaviours.{counted, count_op, in_turn, key_of, lowered_assignment, lowered_step, one_further};
ghost use Rattle.lower_processes.specs.Expressions.{lowered_expr, lowered_if_written, lowered_path};
ghost use Rattle.check_base.specs.Files.{place_in};

use crate::expressions::{lowered_expr, lowered_if_written, lowered_path};
use crate::numbers::Numbers;
use behaviour_tree::{Behaviour, Expr, HandlerKey, PathExpr, SumOp, SumPart};
use check_base::{Names, number};
use jolie_ast::{Assignment, Count, ForStep, Name, Path};
use jolie_trees::Root;
use std::alloc::{AllocError, Global};

// ---- assignments

pub fn lowered_assignment(
    alloc: Global,
    path: &Path,
    assignment: &Assignment,
) -> Result<Behaviour, AllocError>
    ensures { IfOk result (λ p. behaviour_view p ≡ lowered_assignment (lowered_path path.now) assignment.now) }
{
    match assignment {
        Assignment::Root(value) => assigned(alloc, path, value),
        Assignment::Copy(value) => copied_to(alloc, path, value),
        Assignment::Count(count) => counted(alloc, path, *count),
    }
}

/// A path that is given a value.
#[tactic(auto, using(crate::proofs::SeenBehaviours::assign_seen))]
fn assigned(alloc: Global, path: &Path, value: &jolie_ast::Expr) -> Result<Behaviour, AllocError>
    ensures { IfOk result (λ p. behaviour_view p ≡ assign (lowered_path path.now) (lowered_expr value.now)) }
{
    let path = lowered_path(alloc, path)?;
    let value = lowered_expr(alloc, value)?;
    Ok(Behaviour::Assign { path, value })
}

/// A path that is given the tree of a value.
#[tactic(auto, using(crate::proofs::SeenBehaviours::copy_seen))]
fn copied_to(alloc: Global, path: &Path, value: &jolie_ast::Expr) -> Result<Behaviour, AllocError>
    ensures { IfOk result (λ p. behaviour_view p ≡ copy (lowered_path path.now) (lowered_expr value.now)) }
{
    let path = lowered_path(alloc, path)?;
    let value = lowered_expr(alloc, value)?;
    Ok(Behaviour::Copy { path, value })
}

/// `p++` is `p = p + 1`, and `p--` is `p = p - 1`.
#[tactic(auto, using(crate::proofs::SeenBehaviours::assign_seen))]
fn counted(alloc: Global, path: &Path, count: Count) -> Result<Behaviour, AllocError>
    ensures { IfOk result (λ p. behaviour_view p ≡ counted (lowered_path path.now) count) }
{
    let target = lowered_path(alloc, path)?;
    let value = one_further(alloc, path, count)?;
    Ok(Behaviour::Assign {
        path: target,
        value,
    })
}

/// The value at a path, and one more or less.
#[tactic(auto, using(crate::proofs::SeenExpressions::sum_seen, crate::proofs::SeenExpressions::path_form_seen, crate::proofs::SeenExpressions::sum_part_seen, crate::proofs::SeenExpressions::value_seen))]
fn one_further(alloc: Global, path: &Path, count: Count) -> Result<Expr, AllocError>
    ensures { IfOk result (λ e. expr_view e ≡ one_further (lowered_path path.now) count) }
{
    let path = lowered_path(alloc, path)?;
    let mut rest = Vec::new(alloc);
    rest.push(SumPart {
        op: count_op(count),
        value: Expr::Value(Root::Int(1)),
    })?;
    Ok(Expr::Sum {
        first: Box::new(alloc, Expr::Path(path))?,
        rest,
    })
}

fn count_op(count: Count) -> SumOp
    ensures { result ≡ count_op count }
{
    match count {
        Count::Up => SumOp::Plus,
        Count::Down => SumOp::Minus,
    }
}

// ---- loops

/// A path that is given its first value, and then a turn as long as a test holds.
pub fn looped(
    alloc: Global,
    path: &Path,
    first: &jolie_ast::Expr,
    test: &jolie_ast::Expr,
    turn: Box<Behaviour>,
) -> Result<Behaviour, AllocError>
    ensures { IfOk result
        (λ p. behaviour_view p ≡ in_turn (assign (lowered_path path.now) (lowered_expr first.now))
        (repeat (lowered_expr test.now) (behaviour_view turn.value))) }
{
    let repeated = repeated(alloc, test, turn)?;
    let first = assigned(alloc, path, first)?;
    in_turn(alloc, first, repeated)
}

/// A turn, as long as a test holds.
#[tactic(auto, using(crate::proofs::SeenBehaviours::while_seen))]
fn repeated(
    alloc: Global,
    test: &jolie_ast::Expr,
    turn: Box<Behaviour>,
) -> Result<Box<Behaviour>, AllocError>
    ensures { IfOk result (λ b. behaviour_view b.value ≡ repeat (lowered_expr test.now) (behaviour_view turn.value)) }
{
    let test = lowered_expr(alloc, test)?;
    Ok(Box::new(alloc, Behaviour::While { test, body: turn })?)
}

/// A body and a step after it.
pub fn boxed_turn(
    alloc: Global,
    body: Behaviour,
    step: Box<Behaviour>,
) -> Result<Box<Behaviour>, AllocError>
    ensures { IfOk result (λ b. behaviour_view b.value ≡ in_turn (behaviour_view body) (behaviour_view step.value)) }
{
    let turn = in_turn(alloc, body, step)?;
    Ok(Box::new(alloc, turn)?)
}

/// What the last part of a `for` means.
pub fn boxed_step(alloc: Global, path: &Path, step: &ForStep) -> Result<Box<Behaviour>, AllocError>
    ensures { IfOk result (λ b. behaviour_view b.value ≡ lowered_step (lowered_path path.now) step.now) }
{
    let step = lowered_step(alloc, path, step)?;
    Ok(Box::new(alloc, step)?)
}

fn lowered_step(alloc: Global, path: &Path, step: &ForStep) -> Result<Behaviour, AllocError>
    ensures { IfOk result (λ p. behaviour_view p ≡ lowered_step (lowered_path path.now) step.now) }
{
    match step {
        ForStep::Root(value) => assigned(alloc, path, value),
        ForStep::Count(count) => counted(alloc, path, *count),
    }
}

/// Two behaviours, one after the other.
#[tactic(auto, using(crate::proofs::SeenBehaviours::sequence_seen))]
fn in_turn(alloc: Global, first: Behaviour, second: Box<Behaviour>) -> Result<Behaviour, AllocError>
    ensures { IfOk result (λ p. behaviour_view p ≡ in_turn (behaviour_view first) (behaviour_view second.value)) }
{
    let mut both = Vec::new(alloc);
    both.push(first)?;
    both.push(Box::into_inner(second))?;
    Ok(Behaviour::Sequence(both))
}

// ---- paths and names

pub fn lowered_target(alloc: Global, path: &Option<Path>) -> Result<Option<PathExpr>, AllocError>
    ensures { IfOk result (λ p. option_map path_view p ≡ option_map lowered_path path.now) }
{
    match path {
        None => Ok(None),
        Some(path) => Ok(Some(lowered_path(alloc, path)?)),
    }
}

/// A correlation variable that is given a value.
#[tactic(auto, using(crate::proofs::SeenBehaviours::bind_seen))]
pub fn bound(
    alloc: Global,
    variable: &Name,
    value: &jolie_ast::Expr,
    numbers: &Numbers<'_>,
) -> Result<Behaviour, AllocError>
    ensures { IfOk result
        (λ p. behaviour_view p ≡ bind (place_in numbers.now.variables variable.now.text) (lowered_expr value.now)) }
{
    let variable = number(&numbers.variables, variable.text.as_str())?;
    Ok(Behaviour::Bind {
        variable,
        value: lowered_expr(alloc, value)?,
    })
}

#[tactic(auto, using(crate::proofs::SeenBehaviours::throw_seen))]
pub fn throwing(
    alloc: Global,
    fault: &Name,
    value: &Option<jolie_ast::Expr>,
    names: &Names<'_>,
) -> Result<Behaviour, AllocError>
    ensures { IfOk result
        (λ p. behaviour_view p ≡ throw (place_in names.now fault.now.text) (lowered_if_written value.now)) }
{
    let fault = number(names, fault.text.as_str())?;
    Ok(Behaviour::Throw {
        fault,
        value: lowered_if_written(alloc, value)?,
    })
}

pub fn lowered_key(key: &jolie_ast::HandlerKey, names: &Names<'_>) -> Result<HandlerKey, AllocError>
    ensures { IfOk result (λ k. k ≡ key_of names.now key.now) }
{
    match key {
        jolie_ast::HandlerKey::This(_) => Ok(HandlerKey::This),
        jolie_ast::HandlerKey::Named(name) => Ok(HandlerKey::Fault(number(
            names,
            name.text.as_str(),
        )?)),
    }
}
