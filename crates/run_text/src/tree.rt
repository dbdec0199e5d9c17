ghost use Rattle.std.specs.Prelude.{◌≡◌, ◌++◌, OnOk};
ghost use Rattle.std.specs.Fmt.{signed_decimal};
ghost use Rattle.jolie_trees.specs.Trees.{children_of};
ghost use Rattle.jolie_trees.specs.TreeView.{trees_of};
ghost use Rattle.run_text.specs.Nodes as spec;

use crate::writer::Writer;
use jolie_trees::{Root, Text, Tree};
use std::alloc::AllocError;

/// A tree, where the text stands.
#[cycle(push_tree)]
pub(crate) fn push_tree(writer: &mut Writer, tree: &Tree) -> Result<(), AllocError>
    ensures { OnOk result (writer.new ≡ writer.old ++ spec.tree_text tree.now) }
{
    push_root(writer, tree.root())?;
    push_children(writer, tree)
}

/// A root, where the text stands.
pub(crate) fn push_root(writer: &mut Writer, root: &Root) -> Result<(), AllocError>
    ensures { OnOk result (writer.new ≡ writer.old ++ spec.root_text root.now) }
{
    match root {
        Root::Void => writer.push("v"),
        Root::Bool(true) => writer.push("t"),
        Root::Bool(false) => writer.push("f"),
        Root::Int(number) => push_number(writer, "i", i64::from(*number)),
        Root::Long(number) => push_number(writer, "l", *number),
        Root::Text(text) => {
            writer.push("s")?;
            writer.push_string(text.as_str())
        }
    }
}

fn push_number(writer: &mut Writer, letter: &str, number: i64) -> Result<(), AllocError>
    ensures { OnOk result (writer.new ≡ writer.old ++ (letter.now ++ signed_decimal number)) }
{
    writer.push(letter)?;
    writer.push_long(number)
}

/// The children of a node in braces.
#[cycle(push_tree)]
fn push_children(writer: &mut Writer, tree: &Tree) -> Result<(), AllocError>
    ensures { OnOk result (writer.new ≡ writer.old ++ spec.children_text (children_of tree.now)) }
{
    let mut children = tree.children();
    match children.next() {
        None => Ok(()),
        Some((name, trees)) => {
            writer.push("{")?;
            push_named(writer, name, trees)?;
            for (other, members) in children {
                writer.push(",")?;
                push_named(writer, other, members)?;
            }
            writer.push("}")
        }
    }
}

/// A name with the trees under it in brackets.
#[cycle(push_tree)]
fn push_named(writer: &mut Writer, name: &Text, trees: &[Tree]) -> Result<(), AllocError>
    ensures { OnOk result
        (writer.new ≡ writer.old ++ spec.named name.now (spec.trees_text (trees_of trees.now))) }
{
    writer.push_string(name.as_str())?;
    writer.push(":[")?;
    push_trees(writer, trees)?;
    writer.push("]")
}

/// Trees with a comma between every two.
#[cycle(push_tree)]
fn push_trees(writer: &mut Writer, trees: &[Tree]) -> Result<(), AllocError>
    ensures { OnOk result (writer.new ≡ writer.old ++ spec.trees_text (trees_of trees.now)) }
{
    match trees {
        [] => Ok(()),
        [first, rest @ ..] => {
            push_tree(writer, first)?;
            for tree in rest {
                writer.push(",")?;
                push_tree(writer, tree)?;
            }
            Ok(())
        }
    }
}
