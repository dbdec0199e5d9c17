ghost use Rattle.std.specs.Prelude.{◌≡◌, ◌≤◌, ◌+◌, ℕ, max, length, true, Some, OnOk, OnErr};
ghost use Rattle.jolie_trees.specs.Data.{Tree as Plain};
ghost use Rattle.jolie_trees.specs.Trees as spec;
ghost use Rattle.jolie_trees.specs.Trees.{children_of, names_of};
ghost use Rattle.std.specs.Ordering.{nat_cmp};
ghost use Rattle.std.specs.Cmp.Lexicographic.{slice_cmp};
ghost use Rattle.std.specs.List.Sorted.{IsStrictlySortedBy};
ghost use Rattle.jolie_trees.specs.Counts.{FitsAs, taken, taken_of as spec_taken_of};
ghost use Rattle.jolie_trees.specs.TreeView.{trees_of};
ghost use Rattle.jolie_trees.specs.Extents.{at_or_void};
ghost use Rattle.jolie_trees.specs.Limits.{in_u64, is_store};
ghost use Rattle.jolie_trees.specs.declared.root.Root.{Root as PlainRoot};

use super::Tree;
use super::change::Change;
use super::measure::extent_of_all;
use super::set::{MOST_LEVELS, MOST_NODES};
use crate::path::{Path, Step};
use crate::root::Root;
use crate::text::Text;
use sqlite_items::at;
use std::alloc::AllocError;

impl Tree {
    /// How many nodes a store of so many nodes would have with a value at a path, where it would keep the limits. It
    /// looks at the path, the value, and what stands there.
    pub fn nodes_with(&self, nodes: u64, path: &Path, value: &Tree) -> Option<u64>
        requires counted { nodes ≡ spec.size self.now }
        requires within { is_store self.now ≡ true }
        ensures { FitsAs (spec.set path.now.steps value.now self.now) result }
    {
        let steps = path.steps.as_slice();
        let value = value.extent();
        let grown = nodes
            .saturating_add(self.made_along(steps))
            .saturating_add(value.nodes);
        let left = grown.saturating_sub(self.extent_at(steps).nodes);
        let levels = (steps.len() as u64).saturating_add(value.levels as u64);
        if left <= MOST_NODES && levels <= MOST_LEVELS as u64 {
            Some(left)
        } else {
            None
        }
    }

    /// The same with a root at a path, which one it be. It looks at the path alone.
    pub fn nodes_with_root(&self, nodes: u64, path: &Path) -> Option<u64>
        requires counted { nodes ≡ spec.size self.now }
        requires within { is_store self.now ≡ true }
        ensures { (r : PlainRoot) → FitsAs (spec.set_root path.now.steps r self.now) result }
    {
        let steps = path.steps.as_slice();
        let grown = nodes.saturating_add(self.made_along(steps));
        if grown <= MOST_NODES && steps.len() < MOST_LEVELS as usize {
            Some(grown)
        } else {
            None
        }
    }

    /// Puts a tree at a path, whatever the limits.
    pub fn put_at(&mut self, path: &Path, value: Tree) -> Result<(), AllocError>
        ensures ok { OnOk result (self.new ≡ spec.set path.now.steps value self.old) }
        ensures err { OnErr result (self.new ≡ self.old) }
    {
        self.change(path.steps.as_slice(), Change::Whole(value))
    }

    /// Puts a root at a path, whatever the limits.
    pub fn put_root_at(&mut self, path: &Path, root: Root) -> Result<(), AllocError>
        ensures ok { OnOk result (self.new ≡ spec.set_root path.now.steps root self.old) }
        ensures err { OnErr result (self.new ≡ self.old) }
    {
        self.change(path.steps.as_slice(), Change::OnlyRoot(root))
    }

    /// How many nodes go where a path is taken away.
    pub fn taken_by(&self, path: &Path) -> u64
        ensures { result ≡ in_u64 (taken path.now.steps self.now) }
    {
        self.taken_along(path.steps.as_slice())
    }

    fn taken_along(&self, steps: &[Step]) -> u64
        ensures { result ≡ in_u64 (taken steps.now self.now) }
    {
        match steps {
            [] => 0,
            [last] => taken_of(self.members(&last.name), last.index),
            [step, rest @ ..] => match at(self.members(&step.name), step.place()) {
                Some(node) => node.taken_along(rest),
                None => 0,
            },
        }
    }

    /// The trees under a name of a node, whose names are in order.
    fn members_in_order(&self, name: &Text) -> &[Tree]
        ensures members { trees_of result.now ≡ spec.under name.now (children_of self.now) }
        ensures ordered { IsStrictlySortedBy (slice_cmp nat_cmp) (names_of (children_of self.now)) }
    {
        drop(self.children());
        self.members(name)
    }

    /// How many nodes a change at the end of some steps makes on the way.
    fn made_along(&self, steps: &[Step]) -> u64
        ensures nodes { (f : Plain → Plain) → let old = at_or_void steps.now (Some self.now) in
            in_u64 (spec.size (spec.change steps.now f self.now) + spec.size old)
            ≡ in_u64 (spec.size self.now + result + spec.size (f old)) }
        ensures levels { (f : Plain → Plain) (k : ℕ) → spec.levels self.now ≤ k
            → max (spec.levels (spec.change steps.now f self.now)) k
            ≡ max (length steps.now + spec.levels (f (at_or_void steps.now (Some self.now)))) k }
    {
        match steps {
            [] => 0,
            [step, rest @ ..] => {
                let members = self.members_in_order(&step.name);
                match at(members, step.place()) {
                    Some(node) => node.made_along(rest),
                    None => made_anew(rest).saturating_add((step.place() - members.len()) as u64),
                }
            }
        }
    }
}

/// How many nodes go where an index of a vector is taken away, or all of it where there is none.
fn taken_of(members: &[Tree], index: Option<u32>) -> u64
    ensures { result ≡ in_u64 (spec_taken_of index (trees_of members.now)) }
{
    match index {
        None => extent_of_all(members).nodes,
        Some(index) => match at(members, index as usize) {
            Some(node) => node.extent().nodes,
            None => 0,
        },
    }
}

/// How many nodes a change makes at the end of some steps from a node that is missing, that node included.
fn made_anew(steps: &[Step]) -> u64
    ensures { (f : Plain → Plain) → in_u64 (spec.size (spec.change steps.now f spec.void_tree) + 1)
        ≡ in_u64 (result + spec.size (f spec.void_tree)) }
{
    match steps {
        [] => 1,
        [step, rest @ ..] => made_anew(rest)
            .saturating_add(step.place() as u64)
            .saturating_add(1),
    }
}
