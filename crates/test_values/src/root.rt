//! Roots as words.

use crate::error::WordError;
use jolie_trees::{Root, Text};
use std::alloc::{AllocError, Global};

/// The root that a word is: `void`, `true` and `false`, an int after `i`, a long after `l`, a text after `'`.
pub fn read_root(alloc: Global, word: &str) -> Result<Root, WordError> {
    if let Some(text) = word.strip_prefix('\'') {
        return Ok(Root::Text(Text::new(alloc, text)?));
    }
    plain_root(word).ok_or(WordError::Unknown)
}

fn plain_root(word: &str) -> Option<Root> {
    match word {
        "void" => Some(Root::Void),
        "true" => Some(Root::Bool(true)),
        "false" => Some(Root::Bool(false)),
        _ => number(word),
    }
}

fn number(word: &str) -> Option<Root> {
    if let Some(digits) = word.strip_prefix('i') {
        return Some(Root::Int(i32::from_str_radix(digits, 10).ok()?));
    }
    let digits = word.strip_prefix('l')?;
    Some(Root::Long(i64::from_str_radix(digits, 10).ok()?))
}

/// The word of a root.
pub fn root_word(alloc: Global, root: &Root) -> Result<String, AllocError> {
    match root {
        Root::Void => String::from_str(alloc, "void"),
        Root::Bool(truth) => format!(in alloc; "{truth}"),
        Root::Int(number) => format!(in alloc; "i{number}"),
        Root::Long(number) => format!(in alloc; "l{number}"),
        Root::Text(text) => format!(in alloc; "'{}", text.as_str()),
    }
}
