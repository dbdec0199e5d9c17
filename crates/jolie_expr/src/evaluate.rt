ghost use Rattle.std.specs.Prelude.{◌≡◌, map, IfOk, Some, OnOk, option_and_then, option_map, unwrap_or};
ghost use Rattle.std.specs.Option.{option_copied};
ghost use Rattle.behaviour_tree.specs.View.{expr_view, exps_of, member_list_of, member_view, mul_part_view, mul_parts_of, path_view, step_view, sum_part_view, sum_parts_of};
ghost use Rattle.jolie_expr.specs.Answers.{Answers, Finds};
ghost use Rattle.jolie_expr.specs.Steps.{indexed, node_in, step_in};
ghost use Rattle.jolie_trees.specs.Trees.{child, void_tree};
ghost use Rattle.behaviour_tree.specs.Values as spec;

use crate::cast::cast;
use crate::comparison::compare;
use crate::eval_error::EvalError;
use crate::operator::{index_in, negated, product_of_two, sum_of_two, truth_in};
use crate::text::constant;
use behaviour_tree::{Expr, Member, MulPart, PathExpr, PathStep, SumPart};
use jolie_trees::{Path, Root, Step, Text, Tree};
use sqlite_items::{Items, at};
use std::alloc::{AllocError, Global};

/// The node of an index under a name of a node, where both are there.
fn node_below<'a>(node: Option<&'a Tree>, name: &Text, index: Option<u32>) -> Option<&'a Tree>
    ensures { option_copied result ≡ option_and_then (child (spec.stepped name.now index)) (option_copied node.entry) }
{
    match node {
        None => None,
        Some(tree) => at(tree.members(name), place_in(index)),
    }
}

/// The place of a node in its vector.
fn place_in(index: Option<u32>) -> usize
    ensures { result ≡ unwrap_or index 0 }
{
    index.unwrap_or(0) as usize
}

/// A copy of a node, void where none is there.
fn copied_node(alloc: Global, node: Option<&Tree>) -> Result<Tree, AllocError>
    ensures { IfOk result (λ t. t ≡ unwrap_or (option_copied node.entry) void_tree) }
{
    match node {
        None => Ok(Tree::void(alloc)),
        Some(tree) => tree.copied(),
    }
}

/// How many nodes a path names, where an int holds it.
fn count_at(store: &Tree, path: &Path) -> Option<Root>
    ensures { result ≡ spec.count_root store.now path.now.steps }
{
    Some(Root::Int(i32::try_from(store.count(path)).ok()?))
}

/// Puts a member into a literal, where an earlier one of its name gives way.
fn put_member(alloc: Global, literal: &mut Tree, name: &Text, value: Tree) -> Result<(), AllocError>
    ensures { OnOk result (literal.new ≡ spec.with_member name.now value literal.old) }
{
    let mut steps = Items::new(alloc);
    steps.push(Step {
        name: name.copied()?,
        index: None,
    })?;
    literal.undef(&Path { steps });
    literal.push(name, value)
}

/// The value of an expression.
#[cycle(value)]
#[tactic(auto, using(crate::proofs::Faults::map_passes, crate::proofs::Faults::then_passes, crate::proofs::Faults::left_passes, crate::proofs::Faults::right_passes, crate::proofs::Found::tree_of_node, crate::proofs::Found::node_passes))]
pub fn value(alloc: Global, e: &Expr, store: &Tree) -> Result<Tree, EvalError>
    ensures { Answers (spec.value store.now (expr_view e.now)) result }
{
    match e {
        Expr::Value(root) => Ok(Tree::of_root(alloc, constant(root)?)),
        Expr::Path(path) => {
            let node = found(alloc, path, store)?;
            Ok(copied_node(alloc, node)?)
        }
        Expr::Count(path) => {
            let path = steps_of(alloc, path, store)?;
            let count = count_at(store, &path).ok_or(EvalError::ExprFault)?;
            Ok(Tree::of_root(alloc, count))
        }
        Expr::IsDefined(path) => {
            let is_there = found(alloc, path, store)?.is_some();
            Ok(Tree::of_root(alloc, Root::Bool(is_there)))
        }
        Expr::Literal(members) => literal(alloc, members, store),
        Expr::Or(list) => {
            let truth = any_from(alloc, list, store)?;
            Ok(Tree::of_root(alloc, Root::Bool(truth)))
        }
        Expr::And(list) => {
            let truth = all_from(alloc, list, store)?;
            Ok(Tree::of_root(alloc, Root::Bool(truth)))
        }
        Expr::Compare { left, op, right } => {
            let left = root_value(alloc, left, store)?;
            let right = root_value(alloc, right, store)?;
            let truth = compare(&left, &right, *op).ok_or(EvalError::ExprFault)?;
            Ok(Tree::of_root(alloc, Root::Bool(truth)))
        }
        Expr::Sum { first, rest } => {
            let first = root_value(alloc, first, store)?;
            Ok(Tree::of_root(alloc, sum_from(alloc, rest, store, first)?))
        }
        Expr::Product { first, rest } => {
            let first = root_value(alloc, first, store)?;
            Ok(Tree::of_root(alloc, product_from(alloc, rest, store, first)?))
        }
        Expr::Minus(inner) => {
            let root = root_value(alloc, inner, store)?;
            let opposite = negated(&root).ok_or(EvalError::ExprFault)?;
            Ok(Tree::of_root(alloc, opposite))
        }
        Expr::Not(inner) => {
            let truth = truth_value(alloc, inner, store)?;
            Ok(Tree::of_root(alloc, Root::Bool(!truth)))
        }
        Expr::Cast { to, value: inner } => {
            let root = root_value(alloc, inner, store)?;
            Ok(Tree::of_root(alloc, cast(alloc, *to, &root)?))
        }
    }
}

/// The root of the value of an expression.
#[cycle(value)]
fn root_value(alloc: Global, e: &Expr, store: &Tree) -> Result<Root, EvalError>
    ensures { Answers (spec.root_in (spec.value store.now (expr_view e.now))) result }
{
    match e {
        Expr::Value(root) => constant(root),
        Expr::Path(path) => root_at(alloc, path, store),
        _ => root_of_value(alloc, e, store),
    }
}

/// The root of the whole value of an expression.
#[cycle(value)]
fn root_of_value(alloc: Global, e: &Expr, store: &Tree) -> Result<Root, EvalError>
    ensures { Answers (spec.root_in (spec.value store.now (expr_view e.now))) result }
{
    let tree = value(alloc, e, store)?;
    Ok(tree.root().copied()?)
}

/// The root of the node at a path, void where none is there.
#[cycle(value)]
fn root_at(alloc: Global, path: &PathExpr, store: &Tree) -> Result<Root, EvalError>
    ensures { Answers (spec.root_in (option_map (spec.tree_at store.now)
        (spec.steps_of store.now (path_view path.now)))) result }
{
    match found(alloc, path, store)? {
        None => Ok(Root::Void),
        Some(node) => Ok(node.root().copied()?),
    }
}

/// The node at a path, whose indices are evaluated one by one on the way; nothing of the path is copied.
#[cycle(value)]
fn found<'a>(alloc: Global, path: &PathExpr, store: &'a Tree) -> Result<Option<&'a Tree>, EvalError>
    ensures { Finds (node_in store.now (path_view path.now)) result }
{
    let mut node = Some(store);
    for step in &path.steps {
        let index = index_at(alloc, step, store)?;
        node = node_below(node, &step.name, index);
    }
    Ok(node)
}

/// The index of a step, where it has one.
#[cycle(value)]
fn index_at(alloc: Global, step: &PathStep, store: &Tree) -> Result<Option<u32>, EvalError>
    ensures { Answers (indexed store.now (step_view step.now)) result }
{
    match &step.index {
        None => Ok(None),
        Some(index) => {
            let root = root_value(alloc, index, store)?;
            Ok(Some(index_in(&root).ok_or(EvalError::ExprFault)?))
        }
    }
}

/// What an expression says where a bool is asked.
#[cycle(value)]
pub fn truth_value(alloc: Global, e: &Expr, store: &Tree) -> Result<bool, EvalError>
    ensures { Answers (spec.truth_of store.now (expr_view e.now)) result }
{
    let root = root_value(alloc, e, store)?;
    truth_in(&root).ok_or(EvalError::ExprFault)
}

/// The tree of some members.
#[cycle(value)]
fn literal(alloc: Global, members: &[Member], store: &Tree) -> Result<Tree, EvalError>
    ensures { Answers (spec.literal_from store.now (Some void_tree) (member_list_of (map member_view members.now)))
        result }
{
    let mut literal = Tree::void(alloc);
    for member in members {
        let value = value(alloc, &member.value, store)?;
        put_member(alloc, &mut literal, &member.name, value)?;
    }
    Ok(literal)
}

/// `||` of operands, the first true one leaving the rest.
#[cycle(value)]
fn any_from(alloc: Global, list: &[Expr], store: &Tree) -> Result<bool, EvalError>
    ensures { Answers (spec.any_from store.now (exps_of (map expr_view list.now))) result }
{
    for e in list {
        if truth_value(alloc, e, store)? {
            return Ok(true);
        }
    }
    Ok(false)
}

/// `&&` of operands, the first false one leaving the rest.
#[cycle(value)]
fn all_from(alloc: Global, list: &[Expr], store: &Tree) -> Result<bool, EvalError>
    ensures { Answers (spec.all_from store.now (exps_of (map expr_view list.now))) result }
{
    for e in list {
        if !truth_value(alloc, e, store)? {
            return Ok(false);
        }
    }
    Ok(true)
}

/// What is added and taken away, one by one from the left.
#[cycle(value)]
fn sum_from(alloc: Global, rest: &[SumPart], store: &Tree, first: Root) -> Result<Root, EvalError>
    ensures { Answers (spec.sum_from store.now (Some first) (sum_parts_of (map sum_part_view rest.now))) result }
{
    let mut sum = first;
    for part in rest {
        let operand = root_value(alloc, &part.value, store)?;
        sum = sum_of_two(alloc, part.op, &sum, &operand)?;
    }
    Ok(sum)
}

/// What is multiplied and divided by, one by one from the left.
#[cycle(value)]
fn product_from(
    alloc: Global,
    rest: &[MulPart],
    store: &Tree,
    first: Root,
) -> Result<Root, EvalError>
    ensures { Answers (spec.product_from store.now (Some first) (mul_parts_of (map mul_part_view rest.now))) result }
{
    let mut product = first;
    for part in rest {
        let operand = root_value(alloc, &part.value, store)?;
        product = product_of_two(part.op, &product, &operand).ok_or(EvalError::ExprFault)?;
    }
    Ok(product)
}

/// The steps of a path, a fault where an index is no int from 0.
#[cycle(value)]
pub fn steps_of(alloc: Global, path: &PathExpr, store: &Tree) -> Result<Path, EvalError>
    ensures { Answers (spec.path_in store.now (path_view path.now)) result }
{
    let mut steps = Items::new(alloc);
    for step in &path.steps {
        steps.push(evaluated(alloc, step, store)?)?;
    }
    Ok(Path { steps })
}

/// A step with its index.
#[cycle(value)]
fn evaluated(alloc: Global, step: &PathStep, store: &Tree) -> Result<Step, EvalError>
    ensures { Answers (step_in store.now (step_view step.now)) result }
{
    let name = step.name.copied()?;
    let index = index_at(alloc, step, store)?;
    Ok(Step { name, index })
}
