//! Where trees break their types, and the trees with their ints widened.
use behaviour_tree::{Program, TypeDef};
use jolie_trees::{Path, Root, Text, Tree};
use message_types::{conforms, first_breach, widen};
use std::alloc::{AllocError, Global};
use test_programs::with_program;
use test_rows::Row;
use test_values::{read_tree, read_type};

/// The types of the program: an int, the one before it, and one that may stand below itself.
const TYPES: &[u8] =
    b"type Whole: int type Same: Whole type Chain: void { next?: Chain } service S { main { } }";

/// What is found of the tree of a row.
pub fn judged(alloc: Global, row: &Row<'_>) -> anyhow::Result<String> {
    with_program(alloc, TYPES, |program| judged_by(alloc, row, program))
}

fn judged_by(alloc: Global, row: &Row<'_>, program: &Program) -> anyhow::Result<String> {
    let words = row.text(alloc, "type")?;
    let ty = read_type(alloc, words.as_str())?;
    match row.text(alloc, "call")?.as_str() {
        "type" => {
            let words = row.text(alloc, "tree")?;
            let tree = read_tree(alloc, words.as_str())?;
            Ok(breach_and_widened(alloc, tree, &ty, program)?)
        }
        _ => {
            let tree = large_tree(alloc, row)?;
            Ok(breach(alloc, &tree, &ty, program)?)
        }
    }
}

/// What is expected of the tree of a row, as `judged` writes it.
pub fn wanted(alloc: Global, row: &Row<'_>) -> anyhow::Result<String> {
    let breach = row.text(alloc, "breach")?;
    match row.text(alloc, "call")?.as_str() {
        "type" => {
            let words = row.text(alloc, "widened")?;
            let widened = shown(alloc, words.as_str())?;
            Ok(format!(in alloc; "{breach}; {widened}")?)
        }
        _ => Ok(breach),
    }
}

/// The tree of words as it is shown, empty where there are none.
fn shown(alloc: Global, words: &str) -> anyhow::Result<String> {
    if words.is_empty() {
        return Ok(String::new(alloc));
    }
    let tree = read_tree(alloc, words)?;
    Ok(format!(in alloc; "{tree:?}")?)
}

fn breach_and_widened(
    alloc: Global,
    tree: Tree,
    ty: &TypeDef,
    program: &Program,
) -> Result<String, AllocError> {
    let breach = breach(alloc, &tree, ty, program)?;
    let widened = widened(alloc, tree, ty, program)?;
    format!(in alloc; "{breach}; {widened}")
}

/// The path of the first breach, `-` where there is none.
fn breach(
    alloc: Global,
    tree: &Tree,
    ty: &TypeDef,
    program: &Program,
) -> Result<String, AllocError> {
    match first_breach(alloc, tree, ty, program)? {
        Some(path) => path_words(alloc, &path),
        None => String::from_str(alloc, "-"),
    }
}

/// A path as its names and indices.
fn path_words(alloc: Global, path: &Path) -> Result<String, AllocError> {
    let mut words = String::from_str(alloc, "root")?;
    for step in path.steps.as_slice() {
        let index = step.index.unwrap_or(u32::MAX);
        let word = format!(in alloc; " {} {index}", step.name.as_str())?;
        words.push_str(word.as_str())?;
    }
    Ok(words)
}

/// The tree once it is widened, empty where it does not conform.
fn widened(
    alloc: Global,
    mut tree: Tree,
    ty: &TypeDef,
    program: &Program,
) -> Result<String, AllocError> {
    if !conforms(&tree, ty, program) {
        return Ok(String::new(alloc));
    }
    widen(&mut tree, ty, program);
    format!(in alloc; "{tree:?}")
}

/// The tree of a shape and a size.
fn large_tree(alloc: Global, row: &Row<'_>) -> anyhow::Result<Tree> {
    let size = row.number(alloc, "size")?;
    match row.text(alloc, "shape")?.as_str() {
        "wide" => Ok(wide_tree(alloc, size)?),
        "deep" => Ok(deep_tree(alloc, size)?),
        _ => Ok(long_text(alloc, size)?),
    }
}

/// So many trees of one node under one name of a root.
fn wide_tree(alloc: Global, members: u32) -> Result<Tree, AllocError> {
    let name = Text::new(alloc, "a")?;
    let mut tree = Tree::void(alloc);
    for _ in 0..members {
        tree.push(&name, Tree::of_root(alloc, Root::Int(1)))?;
    }
    Ok(tree)
}

/// A tree of so many levels below its root.
fn deep_tree(alloc: Global, levels: u32) -> Result<Tree, AllocError> {
    let name = Text::new(alloc, "next")?;
    let mut tree = Tree::void(alloc);
    for _ in 0..levels {
        let mut parent = Tree::void(alloc);
        parent.push(&name, tree)?;
        tree = parent;
    }
    Ok(tree)
}

/// A text of so many letters.
fn long_text(alloc: Global, letters: u32) -> Result<Tree, AllocError> {
    let mut text = String::new(alloc);
    for _ in 0..letters {
        text.push_str("x")?;
    }
    Ok(Tree::of_root(alloc, Root::Text(Text::from_string(text))))
}
