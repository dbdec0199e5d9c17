ghost use Rattle.std.specs.Prelude.{◌≡◌, OnOk, OnErr, Some};
ghost use Rattle.jolie_trees.specs.Data.{Tree as Plain};
ghost use Rattle.jolie_trees.specs.Trees as spec;
ghost use Rattle.jolie_trees.specs.Extents.{extent_of, at_or_void};
ghost use Rattle.jolie_trees.specs.Limits.{is_store};
ghost use Rattle.jolie_trees.specs.Refusals.{KeepsLimits};
ghost use Rattle.jolie_trees.specs.declared.root.Root.{Root as PlainRoot};

use super::Tree;
use super::change::Change;
use crate::extent::Extent;
use crate::path::{Path, Step};
use crate::root::Root;
use crate::set_error::SetError;

/// The most nodes that a change may leave.
pub(super) const MOST_NODES: u64 = 65_536;

/// The most levels that a change may leave.
pub(super) const MOST_LEVELS: u32 = 64;

impl Tree {
    /// Puts a tree at a path, with void nodes for those that are missing. After each refusal the
    /// tree is unchanged.
    pub fn set(&mut self, path: &Path, value: Tree) -> Result<(), SetError>
        ensures done { OnOk result (self.new ≡ spec.set path.now.steps value self.old) }
        ensures limits { KeepsLimits (spec.set path.now.steps value self.old) result }
        ensures refused { OnErr result (self.new ≡ self.old) }
    {
        let steps = path.steps.as_slice();
        check_limits(self.extent_with(steps, value.extent()))?;
        self.change(steps, Change::Whole(value))?;
        Ok(())
    }

    /// Puts a root at a path and leaves the children there, with void nodes for those that are
    /// missing. After each refusal the tree is unchanged.
    pub fn set_root(&mut self, path: &Path, root: Root) -> Result<(), SetError>
        ensures done { OnOk result (self.new ≡ spec.set_root path.now.steps root self.old) }
        ensures limits { KeepsLimits (spec.set_root path.now.steps root self.old) result }
        ensures refused { OnErr result (self.new ≡ self.old) }
    {
        let steps = path.steps.as_slice();
        check_limits(self.extent_with(steps, self.extent_at(steps)))?;
        self.change(steps, Change::OnlyRoot(root))?;
        Ok(())
    }

    /// Puts a copy of the tree at one path at another. After each refusal the tree is unchanged.
    pub fn copy(&mut self, to: &Path, from: &Path) -> Result<(), SetError>
        ensures done { OnOk result (self.new
            ≡ spec.copy to.now.steps from.now.steps self.old) }
        ensures limits { KeepsLimits (spec.copy to.now.steps from.now.steps self.old) result }
        ensures refused { OnErr result (self.new ≡ self.old) }
    {
        let value = match self.get(from) {
            Some(tree) => tree.copied()?,
            None => Tree::void(self.alloc),
        };
        self.set(to, value)
    }

    /// Whether the tree would keep the limits with that value at a path.
    pub fn fits_set(&self, path: &Path, value: &Tree) -> bool
        ensures { result ≡ is_store (spec.set path.now.steps value.now self.now) }
    {
        is_within_limits(self.extent_with(path.steps.as_slice(), value.extent()))
    }

    /// Whether the tree would keep the limits with a root at a path, which one it be.
    pub fn fits_root(&self, path: &Path) -> bool
        ensures { (r : PlainRoot) → result ≡ is_store (spec.set_root path.now.steps r self.now) }
    {
        let steps = path.steps.as_slice();
        is_within_limits(self.extent_with(steps, self.extent_at(steps)))
    }

    /// The extent of the node that the steps lead to, a missing one being void.
    pub(super) fn extent_at(&self, steps: &[Step]) -> Extent
        ensures { result ≡ extent_of (at_or_void steps.now (Some self.now)) }
    {
        match self.at(steps) {
            Some(node) => node.extent(),
            None => Extent::of_nodes_alone(1),
        }
    }
}

fn check_limits(extent: Extent) -> Result<(), SetError>
    ensures { (tree : Plain) → extent ≡ extent_of tree → KeepsLimits tree result }
{
    if extent.nodes > MOST_NODES {
        return Err(SetError::TooLarge(extent.nodes));
    }
    if extent.levels > MOST_LEVELS {
        return Err(SetError::TooDeep(extent.levels));
    }
    Ok(())
}

fn is_within_limits(extent: Extent) -> bool
    ensures { (tree : Plain) → extent ≡ extent_of tree → result ≡ is_store tree }
{
    extent.nodes <= MOST_NODES && extent.levels <= MOST_LEVELS
}
