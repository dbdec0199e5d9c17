ghost use Rattle.behaviour_tree.specs.View.{expr_view, path_view};
ghost use Rattle.jolie_expr.specs.Answers.{Answers};
ghost use Rattle.behaviour_tree.specs.Values as spec;

use crate::eval_error::EvalError;
use crate::evaluate::{steps_of, truth_value, value};
use behaviour_tree::{Expr, PathExpr};
use jolie_trees::{Path, Tree};
use std::alloc::Global;

/// The value of an expression.
pub fn eval(alloc: Global, store: &Tree, e: &Expr) -> Result<Tree, EvalError>
    ensures { Answers (spec.value store.now (expr_view e.now)) result }
{
    value(alloc, e, store)
}

/// What an expression says where a bool is asked, void being false.
pub fn truth(alloc: Global, store: &Tree, e: &Expr) -> Result<bool, EvalError>
    ensures { Answers (spec.truth_of store.now (expr_view e.now)) result }
{
    truth_value(alloc, e, store)
}

/// A path with its indices evaluated.
pub fn path(alloc: Global, store: &Tree, p: &PathExpr) -> Result<Path, EvalError>
    ensures { Answers (spec.path_in store.now (path_view p.now)) result }
{
    steps_of(alloc, p, store)
}
