ghost use Rattle.std.specs.Prelude.{◌≡◌, IsTrue, Some, map};
ghost use Rattle.jolie_trees.specs.Data.{node};
ghost use Rattle.jolie_trees.specs.Trees.{children_of, root_of, with_root};
ghost use Rattle.jolie_trees.specs.TreeView.{trees_of};
ghost use Rattle.behaviour_tree.specs.Conforms as spec;
ghost use Rattle.behaviour_tree.specs.PartsView.{parts_of};
ghost use Rattle.behaviour_tree.specs.View.{field_view, type_fields_of, type_view};

use crate::shape::field_named;
use behaviour_tree::{Field, Program, RootKind, TypeDef, behind_names};
use jolie_trees::{Root, Tree};

/// Turns each int into a long where the type says long.
pub fn widen(value: &mut Tree, ty: &TypeDef, program: &Program)
    requires { IsTrue (spec.conforms (parts_of program.now).types value.old (type_view ty.now)) }
    ensures { value.new ≡ spec.wide (parts_of program.now).types value.old (type_view ty.now) }
{
    widen_tree(value, ty, program.parts().types.as_slice());
}

#[cycle(widened)]
fn widen_tree(value: &mut Tree, ty: &TypeDef, types: &[TypeDef])
    ensures { value.new ≡ spec.wide (map type_view types.now) value.old (type_view ty.now) }
{
    match behind_names(ty, types) {
        Some(TypeDef::Plain { kind, fields }) => {
            widen_root(value, *kind);
            widen_children(value, fields, types);
        }
        Some(TypeDef::Named(_)) => {}
        Some(TypeDef::Undefined) => {}
        None => {}
    }
}

fn widen_root(value: &mut Tree, kind: RootKind)
    ensures { value.new ≡ with_root (spec.wide_root kind (root_of value.old)) value.old }
{
    if kind != RootKind::Long {
        return;
    }
    if let Root::Int(number) = value.root() {
        let wide = i64::from(*number);
        value.put_root(Root::Long(wide));
    }
}

/// Widens the members of each field. Of fields with one name the first alone counts.
#[cycle(widened)]
fn widen_children(value: &mut Tree, fields: &[Field], types: &[TypeDef])
    ensures { value.new ≡ node (root_of value.old)
        (spec.wide_children (map type_view types.now) (children_of value.old)
        (type_fields_of (map field_view fields.now))) }
{
    for (place, field) in fields.iter().enumerate() {
        if let Some(members) = value.members_mut(&field.name) {
            if field_named(&field.name, &fields[..place]).is_none() {
                widen_members(members.as_mut_slice(), &field.ty, types);
            }
        }
    }
}

#[cycle(widened)]
fn widen_members(members: &mut [Tree], ty: &TypeDef, types: &[TypeDef])
    ensures { trees_of members.new ≡ spec.wide_members (map type_view types.now) (trees_of members.old)
        (Some (type_view ty.now)) }
{
    for member in members.iter_mut() {
        widen_tree(member, ty, types);
    }
}
