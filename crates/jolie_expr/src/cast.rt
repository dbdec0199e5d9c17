ghost use Rattle.std.specs.Prelude.{◌≡◌, option_and_then};
ghost use Rattle.behaviour_tree.specs.Casts as spec;
ghost use Rattle.behaviour_tree.specs.Numbers.{int_root, long_root};
ghost use Rattle.jolie_expr.specs.Answers.{Answers};

use crate::eval_error::EvalError;
use crate::text::{int_in, long_in, spelled, text_root};
use behaviour_tree::CastKind;
use jolie_trees::Root;
use std::alloc::Global;

/// A root as an int.
fn to_int(root: &Root) -> Option<Root>
    ensures { result ≡ option_and_then int_root (spec.number_of root.now) }
{
    match root {
        Root::Void => None,
        Root::Bool(b) => Some(Root::Int(i32::from(*b))),
        Root::Int(n) => Some(Root::Int(*n)),
        Root::Long(n) => Some(Root::Int(i32::try_from(*n).ok()?)),
        Root::Text(text) => Some(Root::Int(int_in(text)?)),
    }
}

/// A root as a long.
fn to_long(root: &Root) -> Option<Root>
    ensures { result ≡ option_and_then long_root (spec.number_of root.now) }
{
    match root {
        Root::Void => None,
        Root::Bool(b) => Some(Root::Long(i64::from(*b))),
        Root::Int(n) => Some(Root::Long(i64::from(*n))),
        Root::Long(n) => Some(Root::Long(*n)),
        Root::Text(text) => Some(Root::Long(long_in(text)?)),
    }
}

/// What a cast makes of a root.
pub fn cast(alloc: Global, to: CastKind, root: &Root) -> Result<Root, EvalError>
    ensures { Answers (spec.cast_to to root.now) result }
{
    match to {
        CastKind::Int => to_int(root).ok_or(EvalError::ExprFault),
        CastKind::Long => to_long(root).ok_or(EvalError::ExprFault),
        CastKind::Text => text_root(spelled(alloc, root)?).ok_or(EvalError::ExprFault),
    }
}
