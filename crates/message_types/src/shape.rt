ghost use Rattle.std.specs.Prelude.{◌≡◌, ◌&&◌, map, nat_le, option_map};
ghost use Rattle.std.specs.Option.{option_copied};
ghost use Rattle.jolie_trees.specs.Trees.{children_of, count_of, under};
ghost use Rattle.behaviour_tree.specs.Conforms as spec;
ghost use Rattle.behaviour_tree.specs.View.{field_view, type_fields_of};

use behaviour_tree::{Field, RootKind, at_most};
use jolie_trees::{Root, Text, Tree};

/// The first field of a name.
pub(crate) fn field_named<'a>(name: &Text, fields: &'a [Field]) -> Option<&'a Field>
    ensures { option_map (λ f. (field_view f).ty) (option_copied result)
        ≡ spec.field_type name.now (type_fields_of (map field_view fields.now)) }
{
    for field in fields {
        if *name == field.name {
            return Some(field);
        }
    }
    None
}

/// Whether a root has a kind, an int being a long too.
pub(crate) fn has_kind(kind: RootKind, root: &Root) -> bool
    ensures { result ≡ spec.has_kind kind root.now }
{
    match kind {
        RootKind::Any => true,
        RootKind::Void => matches!(root, Root::Void),
        RootKind::Bool => matches!(root, Root::Bool(_)),
        RootKind::Int => matches!(root, Root::Int(_)),
        RootKind::Long => matches!(root, Root::Int(_) | Root::Long(_)),
        RootKind::Text => matches!(root, Root::Text(_)),
    }
}

/// Whether each field occurs as often as it may.
pub(crate) fn counts_fit(value: &Tree, fields: &[Field]) -> bool
    ensures { result ≡ spec.counts_fit (children_of value.now) (type_fields_of (map field_view fields.now)) }
{
    for field in fields {
        if !count_fits(value, field) {
            return false;
        }
    }
    true
}

/// Whether a field occurs as often as it may.
fn count_fits(value: &Tree, field: &Field) -> bool
    ensures { result ≡ (nat_le field.now.least (count_of (under field.now.name (children_of value.now)))
        && spec.at_most field.now.most (count_of (under field.now.name (children_of value.now)))) }
{
    let count = value.members(&field.name).len();
    field.least as usize <= count && at_most(field.most, count)
}
