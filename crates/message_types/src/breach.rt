ghost use Rattle.std.specs.Prelude.{◌≡◌, ◌==◌, ◌≤◌, ◌||◌, ◌∷◌, Some, IfOk, is_some, length, map, option_map};
ghost use Rattle.jolie_trees.specs.Trees.{children_of, root_of, size, trees_size};
ghost use Rattle.jolie_trees.specs.TreeView.{trees_of};
ghost use Rattle.behaviour_tree.specs.Conforms.{field_type};
ghost use Rattle.behaviour_tree.specs.PartsView.{parts_of};
ghost use Rattle.behaviour_tree.specs.View.{field_view, type_fields_of, type_view};
ghost use Rattle.message_types.specs.Breaches as spec;

use crate::conform::is_message;
use crate::shape::{counts_fit, field_named, has_kind};
use behaviour_tree::{Field, Program, RootKind, TypeDef, behind_names};
use jolie_trees::{Path, Step, Text, Tree};
use sqlite_items::Items;
use std::alloc::{AllocError, Global};

/// The path of the first node in preorder that breaks its type, none where the tree conforms. It is
/// the root where the tree passes a limit of a message.
pub fn first_breach(
    alloc: Global,
    value: &Tree,
    ty: &TypeDef,
    program: &Program,
) -> Result<Option<Path>, AllocError>
    ensures { IfOk result
        (λ path. option_map (λ p. p.steps) path
        ≡ spec.first_breach (parts_of program.now).types value.now (type_view ty.now)) }
{
    let types = program.parts().types.as_slice();
    let steps = if is_message(value) {
        breach(alloc, value, ty, types)?
    } else {
        Some(Vec::new(alloc))
    };
    match steps {
        None => Ok(None),
        Some(steps) => Ok(Some(path_of(steps))),
    }
}

fn path_of(steps: Vec<Step>) -> Path
    ensures { result.steps ≡ steps.items }
{
    Path {
        steps: Items::from_vec(steps),
    }
}

#[cycle(breach)]
fn breach(
    alloc: Global,
    value: &Tree,
    ty: &TypeDef,
    types: &[TypeDef],
) -> Result<Option<Vec<Step>>, AllocError>
    requires { size value.now ≤ 4096 }
    ensures { IfOk result
        (λ steps. option_map (λ v. v.items) steps
        ≡ spec.breach (map type_view types.now) value.now (type_view ty.now)) }
{
    match behind_names(ty, types) {
        Some(TypeDef::Plain { kind, fields }) => {
            if fits_alone(value, *kind, fields) {
                breach_of_children(alloc, value, fields, types)
            } else {
                Ok(Some(Vec::new(alloc)))
            }
        }
        Some(TypeDef::Undefined) => Ok(None),
        Some(TypeDef::Named(_)) => Ok(Some(Vec::new(alloc))),
        None => Ok(Some(Vec::new(alloc))),
    }
}

/// Whether the node itself breaks nothing.
fn fits_alone(value: &Tree, kind: RootKind, fields: &[Field]) -> bool
    ensures { result ≡ spec.fits_alone kind (type_fields_of (map field_view fields.now)) (root_of value.now)
        (children_of value.now) }
{
    has_kind(kind, value.root()) && counts_fit(value, fields) && all_have_fields(value, fields)
}

/// Whether there is a field for the name of each child.
fn all_have_fields(value: &Tree, fields: &[Field]) -> bool
    ensures { result ≡ spec.all_have_fields (children_of value.now) (type_fields_of (map field_view fields.now)) }
{
    for (name, members) in value.children() {
        if !have_field(members, name, fields) {
            return false;
        }
    }
    true
}

/// Whether there is a field for a name, or no member that wants one.
fn have_field(members: &[Tree], name: &Text, fields: &[Field]) -> bool
    ensures { result ≡ (length members.now == 0
        || is_some (field_type name.now (type_fields_of (map field_view fields.now)))) }
{
    members.is_empty() || field_named(name, fields).is_some()
}

#[cycle(breach)]
fn breach_of_children(
    alloc: Global,
    value: &Tree,
    fields: &[Field],
    types: &[TypeDef],
) -> Result<Option<Vec<Step>>, AllocError>
    requires { size value.now ≤ 4096 }
    ensures { IfOk result
        (λ steps. option_map (λ v. v.items) steps
        ≡ spec.breach_of_children (map type_view types.now) (children_of value.now)
        (type_fields_of (map field_view fields.now))) }
{
    for (name, members) in value.children() {
        if let Some(steps) = breach_under(alloc, members, name, fields, types)? {
            return Ok(Some(steps));
        }
    }
    Ok(None)
}

/// The breach of the members of a name by the field of that name, none where there is no field.
#[cycle(breach)]
fn breach_under(
    alloc: Global,
    members: &[Tree],
    name: &Text,
    fields: &[Field],
    types: &[TypeDef],
) -> Result<Option<Vec<Step>>, AllocError>
    requires { trees_size (trees_of members.now) ≤ 4096 }
    ensures { IfOk result
        (λ steps. option_map (λ v. v.items) steps
        ≡ spec.breach_of_members (map type_view types.now) name.now 0 (trees_of members.now)
        (field_type name.now (type_fields_of (map field_view fields.now)))) }
{
    match field_named(name, fields) {
        None => Ok(None),
        Some(field) => breach_of_members(alloc, members, name, &field.ty, types),
    }
}

#[cycle(breach)]
fn breach_of_members(
    alloc: Global,
    members: &[Tree],
    name: &Text,
    ty: &TypeDef,
    types: &[TypeDef],
) -> Result<Option<Vec<Step>>, AllocError>
    requires { trees_size (trees_of members.now) ≤ 4096 }
    ensures { IfOk result
        (λ steps. option_map (λ v. v.items) steps
        ≡ spec.breach_of_members (map type_view types.now) name.now 0 (trees_of members.now)
        (Some (type_view ty.now))) }
{
    for (index, member) in members.iter().enumerate() {
        if let Some(steps) = breach(alloc, member, ty, types)? {
            return Ok(Some(below(name, index as u32, steps)?));
        }
    }
    Ok(None)
}

/// The path with a step before it.
fn below(name: &Text, index: u32, mut steps: Vec<Step>) -> Result<Vec<Step>, AllocError>
    ensures { IfOk result (λ v. v.items ≡ spec.step_to name.now index ∷ steps.items) }
{
    let step = Step {
        name: name.copied()?,
        index: Some(index),
    };
    steps.insert(0, step)?;
    Ok(steps)
}
