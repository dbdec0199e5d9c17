ghost use Rattle.std.specs.Prelude.{◌≡◌, IfOk, None, Some, if◌then◌else◌, option_map};
ghost use Rattle.behaviour_tree.specs.View.{expr_view, path_view};
ghost use Rattle.session_calculus.specs.Effects as spec;
ghost use Rattle.session_calculus.specs.Names.{store_too_large};
ghost use Rattle.session_values.specs.Effects.{fault_in, left_by};
ghost use Rattle.session_values.specs.Kept.{Keeps};

use crate::evaluate::steps_of;
use crate::memory::Memory;
use crate::placed::{Placed, placed_value};
use crate::written::written_path;
use behaviour_tree::{Expr, PathExpr, standard};
use jolie_trees::Tree;
use std::alloc::{AllocError, Global};

/// The fault of a change that was not done, as it would pass a limit.
pub fn unless_done(done: bool) -> Option<u32>
    ensures { result ≡ (if done then None else Some store_too_large) }
{
    if done {
        None
    } else {
        Some(standard::STORE_TOO_LARGE)
    }
}

/// Puts the root of a value at a path; or its fault, where the store stays.
#[tactic(auto, using(crate::proofs::Stored::assigned_nowhere, crate::proofs::Stored::assigned_there))]
pub fn assign(
    alloc: Global,
    path: &PathExpr,
    expr: &Expr,
    memory: &mut Memory,
) -> Result<Option<u32>, AllocError>
    ensures fault { IfOk result
        (λ f. f ≡ fault_in (spec.effect_of memory.old.store (path_view path.now) (expr_view expr.now))) }
    ensures store { IfOk result
        (λ f. memory.new.store ≡ left_by (spec.effect_of memory.old.store (path_view path.now) (expr_view expr.now))
        memory.old.store) }
    ensures kept { Keeps memory.old memory.new }
{
    match placed_value(alloc, path, expr, &memory.store)? {
        None => Ok(Some(standard::EXPR_FAULT)),
        Some(Placed { path, value }) => {
            let root = value.root().copied()?;
            Ok(unless_done(memory.put_root(&path, root)?))
        }
    }
}

/// Puts a whole value at a path; or its fault, where the store stays.
#[tactic(auto, using(crate::proofs::Stored::put_nowhere, crate::proofs::Stored::put_there))]
pub fn copy(
    alloc: Global,
    path: &PathExpr,
    expr: &Expr,
    memory: &mut Memory,
) -> Result<Option<u32>, AllocError>
    ensures fault { IfOk result
        (λ f. f ≡ fault_in (spec.copied memory.old.store (path_view path.now) (expr_view expr.now))) }
    ensures store { IfOk result
        (λ f. memory.new.store ≡ left_by (spec.copied memory.old.store (path_view path.now) (expr_view expr.now))
        memory.old.store) }
    ensures kept { Keeps memory.old memory.new }
{
    match placed_value(alloc, path, expr, &memory.store)? {
        None => Ok(Some(standard::EXPR_FAULT)),
        Some(Placed { path, value }) => Ok(unless_done(memory.put(&path, value)?)),
    }
}

/// Takes away what a path names; or its fault, where the store stays.
#[tactic(auto, using(crate::proofs::Stored::taken_away))]
pub fn take_away(
    alloc: Global,
    path: &PathExpr,
    memory: &mut Memory,
) -> Result<Option<u32>, AllocError>
    ensures fault { IfOk result (λ f. f ≡ fault_in (spec.effect_of_undef memory.old.store (path_view path.now))) }
    ensures store { IfOk result
        (λ f. memory.new.store ≡ left_by (spec.effect_of_undef memory.old.store (path_view path.now))
        memory.old.store) }
    ensures kept { Keeps memory.old memory.new }
{
    match steps_of(alloc, path, &memory.store)? {
        None => Ok(Some(standard::EXPR_FAULT)),
        Some(path) => {
            memory.take_away(&path);
            Ok(None)
        }
    }
}

/// Puts a value that came at its target, unless that passes a limit; or its fault, where the store stays.
#[tactic(auto, using(crate::proofs::Stored::fault_stored, crate::proofs::Stored::left_stored))]
pub fn receive(
    alloc: Global,
    target: &Option<PathExpr>,
    value: Tree,
    memory: &mut Memory,
) -> Result<Option<u32>, AllocError>
    ensures fault { IfOk result
        (λ f. f ≡ fault_in (spec.received memory.old.store (option_map path_view target.now) value)) }
    ensures store { IfOk result
        (λ f. memory.new.store ≡ left_by (spec.received memory.old.store (option_map path_view target.now) value)
        memory.old.store) }
    ensures kept { Keeps memory.old memory.new }
{
    match target {
        None => Ok(None),
        Some(path) => {
            let path = written_path(alloc, path)?;
            Ok(unless_done(memory.put(&path, value)?))
        }
    }
}
