ghost use Rattle.std.specs.Prelude.{◌≡◌};
ghost use Rattle.jolie_trees.specs.Limits.{in_u64, in_u32};
ghost use Rattle.jolie_trees.specs.Extents.{extent_of, trees_extent};
ghost use Rattle.jolie_trees.specs.Trees as spec;
ghost use Rattle.jolie_trees.specs.TreeView.{trees_of};

use super::{Members, Tree};
use crate::extent::Extent;
use crate::root::Root;

impl Tree {
    /// The number of nodes.
    pub fn size(&self) -> u64
        ensures { result ≡ in_u64 (spec.size self.now) }
    {
        self.extent().nodes
    }

    /// The number of levels.
    pub fn depth(&self) -> u32
        ensures { result ≡ in_u32 (spec.levels self.now) }
    {
        self.extent().levels
    }

    #[cycle(extent)]
    pub(super) fn extent(&self) -> Extent
        ensures { result ≡ extent_of self.now }
    {
        let mut below = Extent::NONE;
        for members in self.children.values() {
            below = below.beside(members.extent());
        }
        below.under_a_node()
    }

    /// The bytes of all texts and names, a name counting once for its vector.
    #[cycle(text_bytes)]
    pub fn text_bytes(&self) -> u64
        ensures { result ≡ in_u64 (spec.text_bytes self.now) }
    {
        let mut bytes = root_bytes(&self.root);
        for (name, members) in self.children.iter() {
            bytes = bytes
                .saturating_add(name.len() as u64)
                .saturating_add(members.text_bytes());
        }
        bytes
    }
}

impl Members {
    #[cycle(extent)]
    pub(super) fn extent(&self) -> Extent
        ensures { result ≡ trees_extent self.now }
    {
        extent_of_all(self.list.as_slice())
    }

    #[cycle(text_bytes)]
    fn text_bytes(&self) -> u64
        ensures { result ≡ in_u64 (spec.trees_bytes self.now) }
    {
        let mut bytes = 0u64;
        for tree in &self.list {
            bytes = bytes.saturating_add(tree.text_bytes());
        }
        bytes
    }
}

/// The extent of trees beside one another.
#[cycle(extent)]
pub(super) fn extent_of_all(trees: &[Tree]) -> Extent
    ensures { result ≡ trees_extent (trees_of trees.now) }
{
    let mut all = Extent::NONE;
    for tree in trees {
        all = all.beside(tree.extent());
    }
    all
}

fn root_bytes(root: &Root) -> u64
    ensures { result ≡ in_u64 (spec.root_bytes root.now) }
{
    match root {
        Root::Text(text) => text.len() as u64,
        Root::Void | Root::Bool(_) | Root::Int(_) | Root::Long(_) => 0,
    }
}
