ghost use Rattle.std.specs.Prelude.{◌≡◌, option_map, IfOk};
ghost use Rattle.behaviour_tree.specs.Values as spec;
ghost use Rattle.behaviour_tree.specs.View.{expr_view, path_view};
ghost use Rattle.session_calculus.specs.Faults as faults;

use behaviour_tree::{Expr, PathExpr};
use jolie_expr::{EvalError, eval, path as evaluated, truth as said};
use jolie_trees::{Path, Root, Tree};
use std::alloc::{AllocError, Global};

/// The whole tree at a path, void where nothing is.
pub fn tree_at(alloc: Global, store: &Tree, path: &Path) -> Result<Tree, AllocError>
    ensures { IfOk result (λ t. t ≡ spec.tree_at store.now path.now.steps) }
{
    match store.get(path) {
        None => Ok(Tree::void(alloc)),
        Some(tree) => tree.copied(),
    }
}

/// The value of an expression, or none where it faults.
pub fn value(alloc: Global, expr: &Expr, store: &Tree) -> Result<Option<Tree>, AllocError>
    ensures { IfOk result (λ v. v ≡ spec.value store.now (expr_view expr.now)) }
{
    match eval(alloc, store, expr) {
        Ok(value) => Ok(Some(value)),
        Err(EvalError::ExprFault) => Ok(None),
        Err(EvalError::Memory(error)) => Err(error),
    }
}

/// What an expression says where a bool is asked, or none where it faults.
pub fn truth(alloc: Global, expr: &Expr, store: &Tree) -> Result<Option<bool>, AllocError>
    ensures { IfOk result (λ v. v ≡ spec.truth_of store.now (expr_view expr.now)) }
{
    match said(alloc, store, expr) {
        Ok(truth) => Ok(Some(truth)),
        Err(EvalError::ExprFault) => Ok(None),
        Err(EvalError::Memory(error)) => Err(error),
    }
}

/// The steps of a path, or none where an index is no int from 0.
#[tactic(auto, using(crate::proofs::Paths::steps_found, crate::proofs::Paths::no_steps))]
pub fn steps_of(alloc: Global, path: &PathExpr, store: &Tree) -> Result<Option<Path>, AllocError>
    ensures { IfOk result (λ p. option_map (λ p. p.steps) p ≡ spec.steps_of store.now (path_view path.now)) }
{
    match evaluated(alloc, store, path) {
        Ok(path) => Ok(Some(path)),
        Err(EvalError::ExprFault) => Ok(None),
        Err(EvalError::Memory(error)) => Err(error),
    }
}

/// What an expression binds a variable to: the root of its value, if it is not void.
pub fn binding(alloc: Global, expr: &Expr, store: &Tree) -> Result<Option<Root>, AllocError>
    ensures { IfOk result (λ r. r ≡ faults.binding store.now (expr_view expr.now)) }
{
    match value(alloc, expr, store)? {
        None => Ok(None),
        Some(value) => binding_root(value.root()),
    }
}

/// A root, if it is not void.
fn binding_root(root: &Root) -> Result<Option<Root>, AllocError>
    ensures { IfOk result (λ r. r ≡ faults.binding_root root.now) }
{
    match root {
        Root::Void => Ok(None),
        Root::Bool(_) | Root::Int(_) | Root::Long(_) | Root::Text(_) => Ok(Some(root.copied()?)),
    }
}
