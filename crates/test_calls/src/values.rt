//! Values in words.

use crate::words::number;
use jolie_trees::{Root, Text, Tree};
use std::alloc::{AllocError, Global};
use test_values::{WordError, read_tree};

/// The tree that words make, as `read_tree` has it; `letters N` is a text of so many letters.
pub fn read_value(alloc: Global, words: &str) -> Result<Tree, WordError> {
    match words.strip_prefix("letters ") {
        Some(count) => Ok(letters(alloc, number(count)?)?),
        None => read_tree(alloc, words),
    }
}

fn letters(alloc: Global, count: u32) -> Result<Tree, AllocError> {
    let mut text = String::new(alloc);
    for _ in 0..count {
        text.push('a')?;
    }
    Ok(Tree::of_root(alloc, Root::Text(Text::from_string(text))))
}

/// The words `want` where they make the value, else what there is of it.
pub fn value_words(alloc: Global, value: &Tree, want: &str) -> Result<String, AllocError> {
    let have = format!(in alloc; "{value:?}")?;
    if is_shown_so(alloc, want, have.as_str())? {
        return String::from_str(alloc, want);
    }
    Ok(have)
}

/// Whether words make a value that is shown so.
fn is_shown_so(alloc: Global, words: &str, shown: &str) -> Result<bool, AllocError> {
    match read_value(alloc, words) {
        Ok(value) => is_equal(alloc, &value, shown),
        Err(WordError::Memory(error)) => Err(error),
        Err(WordError::Unknown) | Err(WordError::Lacking) => Ok(false),
    }
}

fn is_equal(alloc: Global, value: &Tree, shown: &str) -> Result<bool, AllocError> {
    let have = format!(in alloc; "{value:?}")?;
    Ok(have.as_str() == shown)
}
