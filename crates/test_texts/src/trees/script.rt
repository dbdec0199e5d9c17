//! Lines that change a tree or ask of it.

use crate::trees::paths::{number, path};
use jolie_trees::{Root, SetError, Text, Tree};
use std::alloc::{AllocError, Global};

/// The tree that a script begins with.
pub fn first_tree(alloc: Global, is_true: bool) -> Tree {
    if is_true {
        Tree::of_root(alloc, Root::Bool(true))
    } else {
        Tree::void(alloc)
    }
}

/// What the lines give.
pub fn told(alloc: Global, tree: &mut Tree, lines: &str) -> Result<String, AllocError> {
    let mut all = String::new(alloc);
    for line in lines.split('\n') {
        if !all.as_str().is_empty() {
            all.push('\n')?;
        }
        let (verb, rest) = line.split_once(' ').unwrap_or((line, ""));
        all.push_str(told_of_line(alloc, tree, verb, rest)?.as_str())?;
    }
    Ok(all)
}

fn told_of_line(
    alloc: Global,
    tree: &mut Tree,
    verb: &str,
    rest: &str,
) -> Result<String, AllocError> {
    match verb {
        "set_root" => set_root(alloc, tree, rest),
        "set_void" => set_void(alloc, tree, rest),
        "copy" => copy(alloc, tree, rest),
        "push" => push(alloc, tree, rest),
        "undef" => undef(alloc, tree, rest),
        _ => asked(alloc, tree, verb, rest),
    }
}

/// What the tree is asked.
fn asked(alloc: Global, tree: &Tree, verb: &str, rest: &str) -> Result<String, AllocError> {
    match verb {
        "size" => tree.size().to_string(alloc),
        "depth" => tree.depth().to_string(alloc),
        "text_bytes" => tree.text_bytes().to_string(alloc),
        "count" => tree.count(&path(alloc, rest)?).to_string(alloc),
        "int" => int_at(alloc, tree, rest),
        "fits_root" => shown_truth(alloc, tree.fits_root(&path(alloc, rest)?)),
        "fits_set" => fits_set(alloc, tree, rest),
        "copied" => copied(alloc, tree, rest),
        _ => String::from_str(alloc, "no such verb"),
    }
}

/// `TO FROM`, the value being what stands at FROM.
fn fits_set(alloc: Global, tree: &Tree, rest: &str) -> Result<String, AllocError> {
    let (to, from) = rest.split_once(' ').unwrap_or((rest, ""));
    let to = path(alloc, to)?;
    let from = path(alloc, from)?;
    match tree.get(&from) {
        Some(value) => shown_truth(alloc, tree.fits_set(&to, value)),
        None => String::from_str(alloc, "nothing"),
    }
}

fn shown_truth(alloc: Global, truth: bool) -> Result<String, AllocError> {
    format!(in alloc; "{truth}")
}

/// The int there, as a copy of the tree has it, and the size of the copy.
fn copied(alloc: Global, tree: &Tree, rest: &str) -> Result<String, AllocError> {
    let copy = tree.copied()?;
    let int = int_at(alloc, &copy, rest)?;
    let size = copy.size();
    format!(in alloc; "{int} of {size}")
}

fn int_at(alloc: Global, tree: &Tree, rest: &str) -> Result<String, AllocError> {
    let at = path(alloc, rest)?;
    match tree.get(&at) {
        Some(node) => shown_root(alloc, node.root()),
        None => String::from_str(alloc, "nothing"),
    }
}

fn shown_root(alloc: Global, root: &Root) -> Result<String, AllocError> {
    match root {
        Root::Int(n) => n.to_string(alloc),
        _ => String::from_str(alloc, "no int"),
    }
}

/// `PATH INT`
fn set_root(alloc: Global, tree: &mut Tree, rest: &str) -> Result<String, AllocError> {
    let (at, value) = rest.split_once(' ').unwrap_or((rest, ""));
    let at = path(alloc, at)?;
    outcome(alloc, &tree.set_root(&at, int(value)))
}

/// `PATH`
fn set_void(alloc: Global, tree: &mut Tree, rest: &str) -> Result<String, AllocError> {
    let at = path(alloc, rest)?;
    outcome(alloc, &tree.set(&at, Tree::void(alloc)))
}

/// `TO FROM`
fn copy(alloc: Global, tree: &mut Tree, rest: &str) -> Result<String, AllocError> {
    let (to, from) = rest.split_once(' ').unwrap_or((rest, ""));
    let to = path(alloc, to)?;
    let from = path(alloc, from)?;
    outcome(alloc, &tree.copy(&to, &from))
}

/// `NAME INT`
fn push(alloc: Global, tree: &mut Tree, rest: &str) -> Result<String, AllocError> {
    let (name, value) = rest.split_once(' ').unwrap_or((rest, ""));
    let name = Text::new(alloc, name)?;
    tree.push(&name, Tree::of_root(alloc, int(value)))?;
    String::from_str(alloc, "done")
}

/// `PATH`
fn undef(alloc: Global, tree: &mut Tree, rest: &str) -> Result<String, AllocError> {
    let at = path(alloc, rest)?;
    tree.undef(&at);
    String::from_str(alloc, "done")
}

fn int(word: &str) -> Root {
    match number(word) {
        Some(n) => Root::Int(n.cast_signed()),
        None => Root::Void,
    }
}

fn outcome(alloc: Global, answer: &Result<(), SetError>) -> Result<String, AllocError> {
    match answer {
        Ok(()) => String::from_str(alloc, "done"),
        Err(refusal) => format!(in alloc; "{refusal}"),
    }
}
