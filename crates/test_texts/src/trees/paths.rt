//! Paths as words.

use jolie_trees::{Path, Step, Text};
use sqlite_items::Items;
use std::alloc::{AllocError, Global};

pub fn path(alloc: Global, word: &str) -> Result<Path, AllocError> {
    let mut steps = Items::new(alloc);
    if word != "-" {
        for part in word.split('.') {
            add_steps(alloc, part, &mut steps)?;
        }
    }
    Ok(Path { steps })
}

/// Adds a step, or a name again and again.
fn add_steps(alloc: Global, part: &str, steps: &mut Items<Step>) -> Result<(), AllocError> {
    let (name, times) = part.split_once('*').unwrap_or((part, "1"));
    for _ in 0..number(times).unwrap_or(0) {
        steps.push(step(alloc, name)?)?;
    }
    Ok(())
}

fn step(alloc: Global, word: &str) -> Result<Step, AllocError> {
    let (name, index) = word.split_once('[').unwrap_or((word, ""));
    Ok(Step {
        name: Text::new(alloc, name)?,
        index: number(index.strip_suffix("]").unwrap_or("")),
    })
}

pub fn number(word: &str) -> Option<u32> {
    word.parse().ok()
}
