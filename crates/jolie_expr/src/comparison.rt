ghost use Rattle.std.specs.Prelude.{◌≡◌};
ghost use Rattle.behaviour_tree.specs.Comparisons as spec;

use behaviour_tree::CompareOp;
use jolie_trees::Root;
use std::cmp::Ordering;

/// Whether two roots are equal: numbers by their value, other kinds with their own kind.
fn same(a: &Root, b: &Root) -> bool
    ensures { result ≡ spec.same a.now b.now }
{
    match (a, b) {
        (Root::Void, Root::Void) => true,
        (Root::Bool(true), Root::Bool(b)) => *b,
        (Root::Bool(false), Root::Bool(b)) => !*b,
        (Root::Int(a), Root::Int(b)) => a == b,
        (Root::Int(a), Root::Long(b)) => i64::from(*a) == *b,
        (Root::Long(a), Root::Int(b)) => *a == i64::from(*b),
        (Root::Long(a), Root::Long(b)) => a == b,
        (Root::Text(a), Root::Text(b)) => a == b,
        _ => false,
    }
}

/// The order of two numbers or of two texts.
fn order(a: &Root, b: &Root) -> Option<Ordering>
    ensures { result ≡ spec.order a.now b.now }
{
    match (a, b) {
        (Root::Int(a), Root::Int(b)) => Some(a.cmp(b)),
        (Root::Int(a), Root::Long(b)) => Some(i64::from(*a).cmp(b)),
        (Root::Long(a), Root::Int(b)) => Some(a.cmp(&i64::from(*b))),
        (Root::Long(a), Root::Long(b)) => Some(a.cmp(b)),
        (Root::Text(a), Root::Text(b)) => Some(a.cmp(b)),
        _ => None,
    }
}

/// What an operator answers on two roots.
pub fn compare(a: &Root, b: &Root, op: CompareOp) -> Option<bool>
    ensures { result ≡ spec.compared_by op a.now b.now }
{
    match op {
        CompareOp::Equal => Some(same(a, b)),
        CompareOp::Unequal => Some(!same(a, b)),
        CompareOp::Less => Some(order(a, b)?.is_lt()),
        CompareOp::AtMost => Some(order(a, b)?.is_le()),
        CompareOp::More => Some(order(a, b)?.is_gt()),
        CompareOp::AtLeast => Some(order(a, b)?.is_ge()),
    }
}
