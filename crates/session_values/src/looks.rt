ghost use Rattle.std.specs.Prelude.{◌≡◌, IfOk};
ghost use Rattle.behaviour_tree.specs.View.{expr_view, path_view};
ghost use Rattle.session_calculus.specs.Effects as spec;
ghost use Rattle.session_values.specs.Effects.{fault_in};

use crate::changes::unless_done;
use crate::evaluate::steps_of;
use crate::memory::Memory;
use crate::placed::placed_value;
use behaviour_tree::{Expr, PathExpr, standard};
use std::alloc::{AllocError, Global};

/// The fault that an assignment has, where it has one.
#[tactic(auto, using(crate::proofs::Stored::assigned_nowhere, crate::proofs::Stored::assigned_there))]
pub fn fault_of_assign(
    alloc: Global,
    path: &PathExpr,
    expr: &Expr,
    memory: &Memory,
) -> Result<Option<u32>, AllocError>
    ensures { IfOk result
        (λ f. f ≡ fault_in (spec.effect_of memory.now.store (path_view path.now) (expr_view expr.now))) }
{
    match placed_value(alloc, path, expr, &memory.store)? {
        None => Ok(Some(standard::EXPR_FAULT)),
        Some(placed) => Ok(unless_done(memory.fits_root(&placed.path))),
    }
}

/// The fault that a copy has, where it has one.
#[tactic(auto, using(crate::proofs::Stored::put_nowhere, crate::proofs::Stored::put_there))]
pub fn fault_of_copy(
    alloc: Global,
    path: &PathExpr,
    expr: &Expr,
    memory: &Memory,
) -> Result<Option<u32>, AllocError>
    ensures { IfOk result
        (λ f. f ≡ fault_in (spec.copied memory.now.store (path_view path.now) (expr_view expr.now))) }
{
    match placed_value(alloc, path, expr, &memory.store)? {
        None => Ok(Some(standard::EXPR_FAULT)),
        Some(placed) => Ok(unless_done(memory.fits_set(&placed.path, &placed.value))),
    }
}

/// The fault that an undef has, where it has one: no store passes a limit by it.
#[tactic(auto, using(crate::proofs::Stored::taken_away))]
pub fn fault_of_undef(
    alloc: Global,
    path: &PathExpr,
    memory: &Memory,
) -> Result<Option<u32>, AllocError>
    ensures { IfOk result (λ f. f ≡ fault_in (spec.effect_of_undef memory.now.store (path_view path.now))) }
{
    match steps_of(alloc, path, &memory.store)? {
        None => Ok(Some(standard::EXPR_FAULT)),
        Some(_) => Ok(None),
    }
}
