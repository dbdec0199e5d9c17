ghost use Rattle.std.specs.Prelude.{◌≡◌, IfOk, length, map, option_map};
ghost use Rattle.std.specs.Option.{option_copied};
ghost use Rattle.serde_json.specs.Data as json;
ghost use Rattle.serde_json.specs.Data.{array};
ghost use Rattle.behaviour_tree.specs.Data.{undefined as undefined_type};
ghost use Rattle.serde_json.specs.View.{view, members_view};
ghost use Rattle.behaviour_tree.specs.View.{field_view, type_fields_of, type_view};
ghost use Rattle.jolie_trees.specs.TreeView.{trees_of};
ghost use Rattle.jsonrpc_text.specs.ToJson as spec;
ghost use Rattle.jsonrpc_text.specs.Walks as walks;

use behaviour_tree::{Field, TypeDef, at_most, behind_names};
use jolie_trees::{Root, Text, Tree};
use serde_json::{Map, Value};
use std::alloc::{AllocError, Global};

/// The name of the member that is a node's root.
const ROOT: &str = "$";

/// The value of a tree under a type: a node without children is its root, another is an object.
#[cycle(json_of)]
pub fn json_of(
    alloc: Global,
    tree: &Tree,
    ty: &TypeDef,
    types: &[TypeDef],
) -> Result<Value, AllocError>
    ensures { IfOk result (λ value. view value ≡ spec.json_of (map type_view types.now) tree.now (type_view ty.now)) }
{
    node(alloc, tree, fields_behind(ty, types), types)
}

/// The fields of the type behind the names, where it has any.
fn fields_behind<'a>(ty: &'a TypeDef, types: &'a [TypeDef]) -> &'a [Field]
    ensures { type_fields_of (map field_view result.now)
        ≡ spec.fields_of_type (map type_view types.now) (type_view ty.now) }
{
    match behind_names(ty, types) {
        Some(TypeDef::Plain { fields, .. }) => fields.as_slice(),
        Some(TypeDef::Named(_)) => &[],
        Some(TypeDef::Undefined) => &[],
        None => &[],
    }
}

/// The value of a node whose type has these fields.
#[cycle(json_of)]
fn node(
    alloc: Global,
    tree: &Tree,
    fields: &[Field],
    types: &[TypeDef],
) -> Result<Value, AllocError>
    ensures { IfOk result
        (λ value. view value ≡ walks.node_json (map type_view types.now) tree.now
        (type_fields_of (map field_view fields.now))) }
{
    let mut members = Map::new(alloc);
    for (name, trees) in tree.children() {
        let value = members_of(alloc, trees, field_named(name, fields), types)?;
        put(alloc, &mut members, name.as_str(), value)?;
    }
    if members.is_empty() {
        return root_value(alloc, tree.root());
    }
    put_root(alloc, &mut members, tree.root())?;
    Ok(Value::Object(members))
}

/// Puts a root at its name, unless it is void.
#[tactic(auto, unfolding(crate::specs::FromJson::root_name))]
fn put_root(alloc: Global, members: &mut Map<String, Value>, root: &Root) -> Result<(), AllocError>
    ensures { IfOk result
        (λ _. members_view members.new.entries ≡ spec.with_root root.now (members_view members.old.entries)) }
{
    match root {
        Root::Void => Ok(()),
        Root::Bool(b) => put(alloc, members, ROOT, Value::from(*b)),
        Root::Int(n) => put(alloc, members, ROOT, Value::from(*n)),
        Root::Long(n) => put(alloc, members, ROOT, Value::from(*n)),
        Root::Text(text) => put(
            alloc,
            members,
            ROOT,
            Value::try_from_str(alloc, text.as_str())?,
        ),
    }
}

/// Puts a value at a name.
fn put(
    alloc: Global,
    members: &mut Map<String, Value>,
    name: &str,
    value: Value,
) -> Result<(), AllocError>
    ensures { IfOk result
        (λ _. members_view members.new.entries ≡ json.put name.now (view value) (members_view members.old.entries)) }
{
    members.insert(String::from_str(alloc, name)?, value)?;
    Ok(())
}

/// The members of one name: an array where their field may repeat or where there are several, else the one.
#[cycle(json_of)]
fn members_of(
    alloc: Global,
    trees: &[Tree],
    field: Option<&Field>,
    types: &[TypeDef],
) -> Result<Value, AllocError>
    ensures { IfOk result
        (λ value. view value ≡ spec.vector_json (map type_view types.now) (trees_of trees.now)
        (walks.part_of (option_map field_view (option_copied field.entry)))) }
{
    let undefined = TypeDef::Undefined;
    let ty = member_type(field, trees.len(), &undefined);
    match trees {
        [tree] => {
            if repeats(field) {
                array(alloc, trees, ty, types)
            } else {
                json_of(alloc, tree, ty, types)
            }
        }
        [] => array(alloc, trees, ty, types),
        [_, _, ..] => array(alloc, trees, ty, types),
    }
}

/// The trees of a vector in order.
#[cycle(json_of)]
fn array(
    alloc: Global,
    trees: &[Tree],
    ty: &TypeDef,
    types: &[TypeDef],
) -> Result<Value, AllocError>
    ensures { IfOk result
        (λ value. view value ≡ array (spec.items_json (map type_view types.now) (trees_of trees.now)
        (type_view ty.now))) }
{
    let mut items = Vec::new(alloc);
    for tree in trees {
        items.push(json_of(alloc, tree, ty, types)?)?;
    }
    Ok(Value::Array(items))
}

/// The first field of a name.
fn field_named<'a>(name: &Text, fields: &'a [Field]) -> Option<&'a Field>
    ensures { walks.part_of (option_map field_view (option_copied result))
        ≡ spec.field_part name.now (type_fields_of (map field_view fields.now)) }
{
    for field in fields {
        if field.name == *name {
            return Some(field);
        }
    }
    None
}

/// Whether a field allows more than one occurrence.
fn repeats(field: Option<&Field>) -> bool
    ensures { result ≡ spec.repeats (walks.part_of (option_map field_view (option_copied field.entry))) }
{
    match field {
        None => false,
        Some(field) => match field.most {
            None => true,
            Some(most) => most > 1,
        },
    }
}

/// The type under which so many members of one name are written: that of their field where it allows as many.
fn member_type<'a>(field: Option<&'a Field>, count: usize, undefined: &'a TypeDef) -> &'a TypeDef
    requires { type_view undefined.now ≡ undefined_type }
    ensures { type_view result.now ≡ spec.member_type
        (walks.part_of (option_map field_view (option_copied field.entry))) count }
{
    match field {
        None => undefined,
        Some(field) => if repeats(Some(field)) || at_most(field.most, count) {
            &field.ty
        } else {
            undefined
        },
    }
}

/// A root as a value: void is null.
pub fn root_value(alloc: Global, root: &Root) -> Result<Value, AllocError>
    ensures { IfOk result (λ value. view value ≡ spec.root_data root.now) }
{
    match root {
        Root::Void => Ok(Value::Null),
        Root::Bool(b) => Ok(Value::from(*b)),
        Root::Int(n) => Ok(Value::from(*n)),
        Root::Long(n) => Ok(Value::from(*n)),
        Root::Text(text) => Value::try_from_str(alloc, text.as_str()),
    }
}
