//! The key that a message names.

ghost use Rattle.std.specs.Prelude.{◌≡◌, IfOk, map, option_map};
ghost use Rattle.std.specs.List.{list_any};
ghost use Rattle.std.specs.declared.alloc.Global.{Global};
ghost use Rattle.std.specs.declared.vec.Vec.{Vec};
ghost use Rattle.jolie_trees.specs.declared.root.Root.{Root};
ghost use Rattle.behaviour_tree.specs.PartsView.{set_view, variable_view};
ghost use Rattle.behaviour_tree.specs.View.{type_view};
ghost use Rattle.office_core.specs.Keys.{all_there, named_by, variables_from};
ghost use Rattle.office_plain.specs.Lookups.{has_alias, value_in};

use crate::aliases::{has_alias, value_of};
use behaviour_tree::{CorrelationSet, SetVariable, TypeDef};
use jolie_trees::{Root, Tree};
use std::alloc::{AllocError, Global};

/// What a tree of a type says of a set: a value for each variable, where the type is in the set.
#[tactic(auto, using(crate::proofs::Variables::names_all, crate::proofs::Variables::names_none))]
pub fn named_values(
    alloc: Global,
    set: &CorrelationSet,
    ty: &TypeDef,
    value: &Tree,
) -> Result<Option<Vec<Root>>, AllocError>
    ensures { IfOk result (λ k. option_map (λ (v : Vec Root Global). v.items) k
        ≡ named_by (type_view ty.now) value.now (variables_from 0 (set_view set.now).variables)) }
{
    if !is_in(&set.variables, ty) {
        return Ok(None);
    }
    let values = values_of(alloc, &set.variables, ty, value)?;
    Ok(values)
}

/// The values of variables in a tree of a type, where each is there.
fn values_of(
    alloc: Global,
    variables: &[SetVariable],
    ty: &TypeDef,
    value: &Tree,
) -> Result<Option<Vec<Root>>, AllocError>
    ensures { IfOk result (λ k. option_map (λ (v : Vec Root Global). v.items) k
        ≡ all_there (map (value_in (type_view ty.now) value.now) (map variable_view variables.now))) }
{
    let mut values = Vec::new(alloc);
    for variable in variables {
        match value_of(variable, ty, value) {
            Some(root) => values.push(root.copied()?)?,
            None => return Ok(None),
        }
    }
    Ok(Some(values))
}

/// Whether a type is in a set of variables: it has one of them.
fn is_in(variables: &[SetVariable], ty: &TypeDef) -> bool
    ensures { result ≡ list_any (has_alias (type_view ty.now)) (map variable_view variables.now) }
{
    for variable in variables {
        if has_alias(variable, ty) {
            return true;
        }
    }
    false
}
