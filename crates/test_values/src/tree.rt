//! Trees as words.

use crate::error::WordError;
use crate::root::read_root;
use jolie_trees::{Text, Tree};
use std::alloc::Global;

/// The tree that words make: a root is put on a pile, and `=name` puts the last tree below the one before it.
pub fn read_tree(alloc: Global, words: &str) -> Result<Tree, WordError> {
    let mut pile = Pile {
        alloc,
        trees: Vec::new(alloc),
    };
    for word in words.split(' ') {
        pile.word(word)?;
    }
    pile.last()
}

/// The trees so far.
#[derive(Drop)]
struct Pile {
    alloc: Global,
    trees: Vec<Tree>,
}

impl Pile {
    fn last(&mut self) -> Result<Tree, WordError> {
        self.trees.pop().ok_or(WordError::Lacking)
    }

    fn word(&mut self, word: &str) -> Result<(), WordError> {
        match word.strip_prefix('=') {
            Some(name) => self.put_below(name),
            None => self.put(word),
        }
    }

    fn put(&mut self, word: &str) -> Result<(), WordError> {
        let root = read_root(self.alloc, word)?;
        self.trees.push(Tree::of_root(self.alloc, root))?;
        Ok(())
    }

    fn put_below(&mut self, name: &str) -> Result<(), WordError> {
        let name = Text::new(self.alloc, name)?;
        let child = self.last()?;
        match self.trees.last_mut() {
            Some(parent) => Ok(parent.push(&name, child)?),
            None => Err(WordError::Lacking),
        }
    }
}
