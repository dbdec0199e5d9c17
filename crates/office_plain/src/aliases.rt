//! Where the types of messages have the variables of correlation sets.

ghost use Rattle.std.specs.Prelude.{◌≡◌, None, option_map};
ghost use Rattle.std.specs.Option.{option_copied};
ghost use Rattle.jolie_trees.specs.Trees.{child};
ghost use Rattle.behaviour_tree.specs.PartsView.{variable_view};
ghost use Rattle.behaviour_tree.specs.Values.{stepped};
ghost use Rattle.behaviour_tree.specs.View.{type_view};
ghost use Rattle.office_core.specs.Keys as keys;
ghost use Rattle.office_plain.specs.Lookups.{has_alias, value_in, variable_of};

use behaviour_tree::{SetVariable, TypeDef};
use jolie_trees::{Root, Text, Tree};

/// The value of a variable in a tree of a type.
pub fn value_of<'a>(variable: &SetVariable, ty: &TypeDef, value: &'a Tree) -> Option<&'a Root>
    ensures { option_copied result ≡ value_in (type_view ty.now) value.now (variable_view variable.now) }
{
    match alias_of(variable, ty) {
        Some(path) => value_at(value, path),
        None => None,
    }
}

/// The value at a path of names.
fn value_at<'a>(value: &'a Tree, path: &[Text]) -> Option<&'a Root>
    ensures { option_copied result ≡ keys.value_at value.now path.now }
{
    let mut node = value;
    for name in path {
        node = first_under(node, name)?;
    }
    Some(node.root())
}

/// The first node of a name.
#[tactic(auto, using(crate::proofs::Paths::first_is))]
fn first_under<'a>(node: &'a Tree, name: &Text) -> Option<&'a Tree>
    ensures { option_copied result ≡ child (stepped name.now None) node.now }
{
    node.members(name).first()
}

/// Whether a type has a variable.
pub(crate) fn has_alias(variable: &SetVariable, ty: &TypeDef) -> bool
    ensures { result ≡ has_alias (type_view ty.now) (variable_view variable.now) }
{
    alias_of(variable, ty).is_some()
}

/// Where a type has a variable, by its own name.
fn alias_of<'a>(variable: &'a SetVariable, ty: &TypeDef) -> Option<&'a [Text]>
    ensures { option_map (λ p. p.now) result
        ≡ keys.alias_of (type_view ty.now) (variable_of 0 (variable_view variable.now)) }
{
    match ty {
        TypeDef::Named(number) => path_in(variable, *number),
        TypeDef::Plain { .. } | TypeDef::Undefined => None,
    }
}

/// Where the type of a number has a variable.
fn path_in(variable: &SetVariable, ty: u32) -> Option<&[Text]>
    ensures { option_map (λ p. p.now) result ≡ keys.path_in ty (variable_of 0 (variable_view variable.now)) }
{
    for alias in &variable.aliases {
        if alias.ty == ty {
            return Some(alias.path.as_slice());
        }
    }
    None
}
