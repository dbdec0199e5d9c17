ghost use Rattle.std.specs.Prelude.{◌≡◌};
ghost use Rattle.behaviour_tree.specs.Operators as spec;
ghost use Rattle.jolie_expr.specs.Answers.{Answers};

use crate::eval_error::EvalError;
use crate::number::{minus, over, plus, rest, times};
use crate::text::joined;
use behaviour_tree::{MulOp, SumOp};
use jolie_trees::Root;
use std::alloc::Global;

/// The sum of two roots.
fn added(alloc: Global, a: &Root, b: &Root) -> Result<Root, EvalError>
    ensures { Answers (spec.added a.now b.now) result }
{
    match (a, b) {
        (Root::Text(_), _) => joined(alloc, a, b),
        (_, Root::Text(_)) => joined(alloc, a, b),
        (Root::Void, _) => Ok(b.copied()?),
        (_, Root::Void) => Ok(a.copied()?),
        _ => plus(a, b).ok_or(EvalError::ExprFault),
    }
}

/// An operator of a sum.
pub fn sum_of_two(alloc: Global, op: SumOp, a: &Root, b: &Root) -> Result<Root, EvalError>
    ensures { Answers (spec.sum_of_two op a.now b.now) result }
{
    match op {
        SumOp::Plus => added(alloc, a, b),
        SumOp::Minus => minus(a, b).ok_or(EvalError::ExprFault),
    }
}

/// An operator of a product.
pub fn product_of_two(op: MulOp, a: &Root, b: &Root) -> Option<Root>
    ensures { result ≡ spec.product_of_two op a.now b.now }
{
    match op {
        MulOp::Times => times(a, b),
        MulOp::Over => over(a, b),
        MulOp::Rest => rest(a, b),
    }
}

/// A number taken from 0.
pub fn negated(a: &Root) -> Option<Root>
    ensures { result ≡ spec.negated a.now }
{
    minus(&Root::Int(0), a)
}

/// What a root says where a bool is asked.
pub fn truth_in(root: &Root) -> Option<bool>
    ensures { result ≡ spec.truth_in root.now }
{
    match root {
        Root::Void => Some(false),
        Root::Bool(b) => Some(*b),
        _ => None,
    }
}

/// The index that a root is.
pub fn index_in(root: &Root) -> Option<u32>
    ensures { result ≡ spec.index_in root.now }
{
    match root {
        Root::Int(n) => u32::try_from(*n).ok(),
        _ => None,
    }
}
