ghost use Rattle.std.specs.Prelude.{◌≡◌, Some, map};
ghost use Rattle.jolie_trees.specs.Trees.{children_of};
ghost use Rattle.jolie_trees.specs.TreeView.{trees_of};
ghost use Rattle.behaviour_tree.specs.Conforms as spec;
ghost use Rattle.behaviour_tree.specs.PartsView.{parts_of};
ghost use Rattle.behaviour_tree.specs.View.{field_view, type_fields_of, type_view};

use crate::shape::{counts_fit, field_named, has_kind};
use behaviour_tree::{Field, Program, TypeDef, behind_names};
use jolie_trees::{Text, Tree};

/// The most nodes of a message.
const MOST_NODES: u64 = 4_096;

/// The most levels of a message.
const MOST_LEVELS: u32 = 64;

/// The most bytes of texts and names of a message.
const MOST_BYTES: u64 = 65_536;

/// Whether a tree is of a type and within the limits of a message.
pub fn conforms(value: &Tree, ty: &TypeDef, program: &Program) -> bool
    ensures { result ≡ spec.conforms (parts_of program.now).types value.now (type_view ty.now) }
{
    is_message(value) && fits(value, ty, program.parts().types.as_slice())
}

/// Whether a tree is within the limits of a message.
pub(crate) fn is_message(value: &Tree) -> bool
    ensures { result ≡ spec.is_message value.now }
{
    value.size() <= MOST_NODES && value.depth() <= MOST_LEVELS && value.text_bytes() <= MOST_BYTES
}

#[cycle(fits)]
fn fits(value: &Tree, ty: &TypeDef, types: &[TypeDef]) -> bool
    ensures { result ≡ spec.fits (map type_view types.now) value.now (type_view ty.now) }
{
    match behind_names(ty, types) {
        Some(TypeDef::Plain { kind, fields }) => {
            has_kind(*kind, value.root())
                && counts_fit(value, fields)
                && children_fit(value, fields, types)
        }
        Some(TypeDef::Undefined) => true,
        Some(TypeDef::Named(_)) => false,
        None => false,
    }
}

/// Whether the members of each name fit the field of that name.
#[cycle(fits)]
fn children_fit(value: &Tree, fields: &[Field], types: &[TypeDef]) -> bool
    ensures { result ≡ spec.children_fit (map type_view types.now) (children_of value.now)
        (type_fields_of (map field_view fields.now)) }
{
    for (name, members) in value.children() {
        if !members_fit(members, name, fields, types) {
            return false;
        }
    }
    true
}

/// Whether the members of a name fit its field, which none does where there is no field.
#[cycle(fits)]
fn members_fit(members: &[Tree], name: &Text, fields: &[Field], types: &[TypeDef]) -> bool
    ensures { result ≡ spec.members_fit (map type_view types.now) (trees_of members.now)
        (spec.field_type name.now (type_fields_of (map field_view fields.now))) }
{
    match field_named(name, fields) {
        None => members.is_empty(),
        Some(field) => all_fit(members, &field.ty, types),
    }
}

#[cycle(fits)]
fn all_fit(members: &[Tree], ty: &TypeDef, types: &[TypeDef]) -> bool
    ensures { result ≡ spec.members_fit (map type_view types.now) (trees_of members.now) (Some (type_view ty.now)) }
{
    for member in members {
        if !fits(member, ty, types) {
            return false;
        }
    }
    true
}
