ghost use Rattle.std.specs.Prelude.{◌≡◌, option_map, IfOk};
ghost use Rattle.behaviour_tree.specs.Values as values;
ghost use Rattle.behaviour_tree.specs.View.{expr_view, path_view};
ghost use Rattle.session_values.specs.Effects.{placed_view, together};

use crate::evaluate::{steps_of, value};
use behaviour_tree::{Expr, PathExpr};
use jolie_trees::{Path, Tree};
use std::alloc::{AllocError, Global};

/// A path and the value that is to be put there.
#[derive(Drop)]
pub struct Placed {
    pub path: Path,
    pub value: Tree,
}

/// Where an assignment or a copy puts what, or none where its path or its value faults.
pub fn placed_value(
    alloc: Global,
    path: &PathExpr,
    expr: &Expr,
    store: &Tree,
) -> Result<Option<Placed>, AllocError>
    ensures { IfOk result
        (λ p. option_map placed_view p ≡ together (values.steps_of store.now (path_view path.now))
        (values.value store.now (expr_view expr.now))) }
{
    let Some(path) = steps_of(alloc, path, store)? else {
        return Ok(None);
    };
    match value(alloc, expr, store)? {
        None => Ok(None),
        Some(value) => Ok(Some(Placed { path, value })),
    }
}
