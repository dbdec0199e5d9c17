ghost use Rattle.std.specs.Prelude.{◌≡◌};
ghost use Rattle.jolie_trees.specs.Trees.{index_of};

use crate::text::Text;
use sqlite_items::Items;

/// One step down a tree: a name, and which of the nodes under it, from 0.
#[derive(Debug, Drop)]
pub struct Step {
    pub name: Text,
    pub index: Option<u32>,
}

impl Step {
    /// The index of the node that the step leads to.
    pub fn place(&self) -> usize
        ensures { result ≡ index_of self.now }
    {
        self.index.unwrap_or(0) as usize
    }
}

/// The way from the root of a tree to a node.
#[derive(Debug, Drop)]
pub struct Path {
    pub steps: Items<Step>,
}
