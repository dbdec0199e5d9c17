ghost use Rattle.std.specs.Prelude.{◌≡◌, IfOk, Some, option_map};
ghost use Rattle.std.specs.Option.{option_copied};
ghost use Rattle.serde_json.specs.Data.{array, object};
ghost use Rattle.serde_json.specs.View.{view, items_view, members_view, number_view};
ghost use Rattle.jolie_trees.specs.Data.{node, no_fields};
ghost use Rattle.jsonrpc_text.specs.FromJson as spec;
ghost use Rattle.jsonrpc_text.specs.Putting as putting;

use jolie_trees::{Root, Text, Tree};
use serde_json::{Map, Number, Value};
use std::alloc::{AllocError, Global};

/// The name of the member that is a node's root.
const ROOT: &str = "$";

/// The tree of the params of a call, none where they make no tree.
pub fn params_tree(alloc: Global, params: Option<&Value>) -> Result<Option<Tree>, AllocError>
    ensures { IfOk result (λ tree. tree ≡ spec.params_tree (option_map view (option_copied params.entry))) }
{
    match params {
        None | Some(Value::Null) => Ok(Some(Tree::void(alloc))),
        Some(Value::Array(items)) => tree_of_one(alloc, items.as_slice()),
        Some(Value::Object(members)) => node_in(alloc, members),
        Some(Value::Bool(_) | Value::Number(_) | Value::String(_)) => Ok(None),
    }
}

/// The tree of params that are an array: void of an empty one, else that of its only item.
fn tree_of_one(alloc: Global, items: &[Value]) -> Result<Option<Tree>, AllocError>
    ensures { IfOk result (λ tree. tree ≡ spec.params_tree (Some (array (items_view items.now)))) }
{
    match items {
        [] => Ok(Some(Tree::void(alloc))),
        [item] => tree_in(alloc, item),
        [_, _, ..] => Ok(None),
    }
}

/// The tree of a value, none where it makes none.
#[cycle(tree_in)]
pub fn tree_in(alloc: Global, value: &Value) -> Result<Option<Tree>, AllocError>
    ensures { IfOk result (λ tree. tree ≡ spec.tree_in (view value.now)) }
{
    match value {
        Value::Null => Ok(Some(Tree::void(alloc))),
        Value::Bool(b) => Ok(Some(Tree::of_root(alloc, Root::Bool(*b)))),
        Value::Number(number) => Ok(leaf(alloc, number_root(number))),
        Value::String(text) => {
            let text = Text::new(alloc, text.as_str())?;
            Ok(Some(Tree::of_root(alloc, Root::Text(text))))
        }
        Value::Array(_) => Ok(None),
        Value::Object(members) => node_in(alloc, members),
    }
}

/// A root alone, where there is one.
fn leaf(alloc: Global, root: Option<Root>) -> Option<Tree>
    ensures { result ≡ option_map (λ r. node r no_fields) root }
{
    match root {
        None => None,
        Some(root) => Some(Tree::of_root(alloc, root)),
    }
}

/// The root that a value is, none where it is an object, an array, or a number that no integer of 64 bits is.
fn root_in(alloc: Global, value: &Value) -> Result<Option<Root>, AllocError>
    ensures { IfOk result (λ root. root ≡ spec.root_in (view value.now)) }
{
    match value {
        Value::Null => Ok(Some(Root::Void)),
        Value::Bool(b) => Ok(Some(Root::Bool(*b))),
        Value::Number(number) => Ok(number_root(number)),
        Value::String(text) => Ok(Some(Root::Text(Text::new(alloc, text.as_str())?))),
        Value::Array(_) => Ok(None),
        Value::Object(_) => Ok(None),
    }
}

/// The root of a number: an int where 32 bits hold it, else a long, and none where 64 bits do not.
fn number_root(number: &Number) -> Option<Root>
    ensures { result ≡ spec.number_root (number_view number.now) }
{
    match number.as_i64() {
        None => None,
        Some(n) => Some(integer_root(n)),
    }
}

/// An integer of 64 bits: an int where 32 bits hold it, else a long.
fn integer_root(n: i64) -> Root
    ensures { result ≡ spec.integer_root n }
{
    if -2_147_483_648 <= n && n <= 2_147_483_647 {
        Root::Int(n as i32)
    } else {
        Root::Long(n)
    }
}

/// The root of an object: its member `$`, or void.
fn root_of_member(alloc: Global, member: Option<&Value>) -> Result<Option<Root>, AllocError>
    ensures { IfOk result (λ root. root ≡ spec.root_of_member (option_map view (option_copied member.entry))) }
{
    match member {
        None => Ok(Some(Root::Void)),
        Some(value) => root_in(alloc, value),
    }
}

/// The node that an object is: its member `$` is the root, the others are the children.
#[cycle(tree_in)]
fn node_in(alloc: Global, members: &Map<String, Value>) -> Result<Option<Tree>, AllocError>
    ensures { IfOk result (λ tree. tree ≡ spec.tree_in (object (members_view members.now.entries))) }
{
    match root_of_member(alloc, members.get(ROOT))? {
        None => Ok(None),
        Some(root) => with_children(alloc, members, root),
    }
}

/// The node of a root and the members of an object but `$`, none where one of them makes no trees.
#[cycle(tree_in)]
fn with_children(
    alloc: Global,
    members: &Map<String, Value>,
    root: Root,
) -> Result<Option<Tree>, AllocError>
    ensures { IfOk result
        (λ tree. tree ≡ spec.of_both node (Some root) (spec.children_in (members_view members.now.entries))) }
{
    let mut node = Tree::of_root(alloc, root);
    for (name, value) in members.iter() {
        if name.as_str() != ROOT {
            let name = Text::new(alloc, name.as_str())?;
            let Some(larger) = with_member(alloc, &name, value, node)? else {
                return Ok(None);
            };
            node = larger;
        }
    }
    Ok(Some(node))
}

/// A node with the trees of a member under its name, none where it makes none: an array is a vector.
#[cycle(tree_in)]
fn with_member(
    alloc: Global,
    name: &Text,
    value: &Value,
    node: Tree,
) -> Result<Option<Tree>, AllocError>
    ensures { IfOk result (λ tree. tree ≡ putting.with_member name.now (view value.now) node) }
{
    match value {
        Value::Array(items) => with_items(alloc, name, items.as_slice(), node),
        Value::Null | Value::Bool(_) | Value::Number(_) | Value::String(_) | Value::Object(_) =>
            with_tree(name, tree_in(alloc, value)?, node),
    }
}

/// A node with the trees of items under a name, none where one of them makes none.
#[cycle(tree_in)]
fn with_items(
    alloc: Global,
    name: &Text,
    items: &[Value],
    node: Tree,
) -> Result<Option<Tree>, AllocError>
    ensures { IfOk result (λ tree. tree ≡ putting.with_items name.now (items_view items.now) node) }
{
    let mut node = node;
    for item in items {
        let Some(larger) = with_tree(name, tree_in(alloc, item)?, node)? else {
            return Ok(None);
        };
        node = larger;
    }
    Ok(Some(node))
}

/// A node with a tree under a name, where there is one.
fn with_tree(name: &Text, tree: Option<Tree>, node: Tree) -> Result<Option<Tree>, AllocError>
    ensures { IfOk result (λ larger. larger ≡ putting.with_tree name.now tree node) }
{
    let Some(tree) = tree else {
        return Ok(None);
    };
    let mut node = node;
    node.push(name, tree)?;
    Ok(Some(node))
}
