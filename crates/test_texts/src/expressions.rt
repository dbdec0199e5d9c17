//! The values of expressions over a store, and what the calls beside `eval` answer.
use behaviour_tree::CompareOp;
use jolie_expr::{EvalError, compare, eval, path, truth};
use jolie_trees::{Text, Tree};
use std::alloc::{AllocError, Global};
use test_rows::Row;
use test_values::{read_expression, read_path, read_root, read_tree, root_word};

/// What the call of a row gives.
pub fn answer(alloc: Global, row: &Row<'_>) -> anyhow::Result<String> {
    match row.text(alloc, "call")?.as_str() {
        "root" => root(alloc, row),
        "member" => member(alloc, row),
        "truth" => truth_of(alloc, row),
        "count" => count(alloc, row),
        "less" => less(alloc, row),
        _ => Ok(String::from_str(alloc, "no such call")?),
    }
}

fn store(alloc: Global, row: &Row<'_>) -> anyhow::Result<Tree> {
    let words = row.text(alloc, "store")?;
    Ok(read_tree(alloc, words.as_str())?)
}

/// What the expression of a row gives.
fn evaluated(alloc: Global, row: &Row<'_>) -> anyhow::Result<Result<Tree, EvalError>> {
    let store = store(alloc, row)?;
    let words = row.text(alloc, "expression")?;
    let expression = read_expression(alloc, words.as_str())?;
    Ok(eval(alloc, &store, &expression))
}

fn refused(alloc: Global, error: &EvalError) -> Result<String, AllocError> {
    match error {
        EvalError::ExprFault => String::from_str(alloc, "fault"),
        EvalError::Memory(_) => String::from_str(alloc, "memory"),
    }
}

fn root(alloc: Global, row: &Row<'_>) -> anyhow::Result<String> {
    match evaluated(alloc, row)? {
        Ok(value) => Ok(root_word(alloc, value.root())?),
        Err(error) => Ok(refused(alloc, &error)?),
    }
}

fn member(alloc: Global, row: &Row<'_>) -> anyhow::Result<String> {
    let name = row.text(alloc, "name")?;
    match evaluated(alloc, row)? {
        Ok(value) => Ok(members(alloc, &value, name.as_str())?),
        Err(error) => Ok(refused(alloc, &error)?),
    }
}

/// How many trees stand under a name, and the root of the first.
fn members(alloc: Global, value: &Tree, name: &str) -> Result<String, AllocError> {
    match value.members(&Text::new(alloc, name)?) {
        [] => String::from_str(alloc, "nothing"),
        [first, rest @ ..] => {
            let root = root_word(alloc, first.root())?;
            let count = rest.len().wrapping_add(1);
            format!(in alloc; "{count} {root}")
        }
    }
}

fn truth_of(alloc: Global, row: &Row<'_>) -> anyhow::Result<String> {
    let store = store(alloc, row)?;
    let words = row.text(alloc, "expression")?;
    let expression = read_expression(alloc, words.as_str())?;
    match truth(alloc, &store, &expression) {
        Ok(truth) => Ok(format!(in alloc; "{truth}")?),
        Err(error) => Ok(refused(alloc, &error)?),
    }
}

/// How many trees stand at the path of a row.
fn count(alloc: Global, row: &Row<'_>) -> anyhow::Result<String> {
    let store = store(alloc, row)?;
    let words = row.text(alloc, "path")?;
    let steps = read_path(alloc, words.as_str())?;
    match path(alloc, &store, &steps) {
        Ok(path) => {
            let count = store.count(&path);
            Ok(format!(in alloc; "{count}")?)
        }
        Err(error) => Ok(refused(alloc, &error)?),
    }
}

fn less(alloc: Global, row: &Row<'_>) -> anyhow::Result<String> {
    let left = row.text(alloc, "left")?;
    let right = row.text(alloc, "right")?;
    let left = read_root(alloc, left.as_str())?;
    let right = read_root(alloc, right.as_str())?;
    match compare(&left, &right, CompareOp::Less) {
        Some(less) => Ok(format!(in alloc; "{less}")?),
        None => Ok(String::from_str(alloc, "none")?),
    }
}
