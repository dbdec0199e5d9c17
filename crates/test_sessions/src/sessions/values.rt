//! Values in words.

use jolie_trees::{Root, Text, Tree};
use std::alloc::{AllocError, Global};
use test_values::{WordError, read_root};

/// The tree that words make: a root is put on a pile, and `=name` puts the last tree below the one before it. Roots are
/// words as `read_root` has them; in texts and names `\s` is a blank, `\n` a line feed and `\\` a backslash.
pub fn read_value(alloc: Global, words: &str) -> Result<Tree, WordError> {
    let mut trees = Vec::new(alloc);
    for word in words.split(' ') {
        match word.strip_prefix('=') {
            Some(name) => put_below(alloc, &mut trees, name)?,
            None => trees.push(Tree::of_root(alloc, root(alloc, word)?))?,
        }
    }
    trees.pop().ok_or(WordError::Lacking)
}

fn put_below(alloc: Global, trees: &mut Vec<Tree>, name: &str) -> Result<(), WordError> {
    let name = text(alloc, name)?;
    let child = trees.pop().ok_or(WordError::Lacking)?;
    match trees.last_mut() {
        Some(parent) => Ok(parent.push(&name, child)?),
        None => Err(WordError::Lacking),
    }
}

fn root(alloc: Global, word: &str) -> Result<Root, WordError> {
    match word.strip_prefix('\'') {
        Some(letters) => Ok(Root::Text(text(alloc, letters)?)),
        None => read_root(alloc, word),
    }
}

fn text(alloc: Global, word: &str) -> Result<Text, WordError> {
    let mut text = String::new(alloc);
    let mut is_escape = false;
    for letter in word.chars() {
        if is_escape {
            text.push(escaped(letter)?)?;
            is_escape = false;
        } else if letter == '\\' {
            is_escape = true;
        } else {
            text.push(letter)?;
        }
    }
    Ok(Text::from_string(text))
}

/// What a letter means after a backslash.
fn escaped(letter: char) -> Result<char, WordError> {
    match letter {
        's' => Ok(' '),
        'n' => Ok('\n'),
        '\\' => Ok('\\'),
        _ => Err(WordError::Unknown),
    }
}

/// The words `want` where they make the value, else what there is of it.
pub fn value_words(alloc: Global, value: &Tree, want: &str) -> Result<String, AllocError> {
    let have = format!(in alloc; "{value:?}")?;
    match read_value(alloc, want) {
        Ok(wanted) => {
            let wanted = format!(in alloc; "{wanted:?}")?;
            if wanted.as_str() == have.as_str() {
                return String::from_str(alloc, want);
            }
            Ok(have)
        }
        Err(WordError::Memory(error)) => Err(error),
        Err(WordError::Unknown) | Err(WordError::Lacking) => Ok(have),
    }
}
