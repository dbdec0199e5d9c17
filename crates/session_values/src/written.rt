ghost use Rattle.std.specs.Prelude.{◌≡◌, ◌∷◌, IfOk};
ghost use Rattle.behaviour_tree.specs.Data.{PathTree};
ghost use Rattle.behaviour_tree.specs.View.{expr_view, path_view, step_of, step_view};
ghost use Rattle.session_calculus.specs.Effects as spec;

use behaviour_tree::{Expr, PathExpr, PathStep};
use jolie_trees::{Path, Root, Step};
use sqlite_items::Items;
use std::alloc::{AllocError, Global};

/// The path whose indices are written as numbers.
pub fn written_path(alloc: Global, path: &PathExpr) -> Result<Path, AllocError>
    ensures { IfOk result (λ p. p.steps ≡ spec.written_steps (path_view path.now)) }
{
    let mut steps = Items::new(alloc);
    for step in &path.steps {
        steps.push(written_step(step)?)?;
    }
    Ok(Path { steps })
}

/// A step whose index is written as a number.
fn written_step(step: &PathStep) -> Result<Step, AllocError>
    ensures { IfOk result
        (λ s. (p : PathTree) → spec.written_steps (step_of (step_view step.now).name (step_view step.now).index p)
        ≡ s ∷ spec.written_steps p) }
{
    let name = step.name.copied()?;
    match &step.index {
        None => Ok(Step { name, index: None }),
        Some(index) => Ok(Step {
            name,
            index: written_index(index),
        }),
    }
}

/// An index that is written as a number.
fn written_index(index: &Expr) -> Option<u32>
    ensures { result ≡ spec.written_index (expr_view index.now) }
{
    match index {
        Expr::Value(Root::Int(number)) => u32::try_from(*number).ok(),
        _ => None,
    }
}
