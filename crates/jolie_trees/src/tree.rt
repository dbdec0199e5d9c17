ghost use Rattle.std.specs.Prelude.{◌≡◌};
ghost use Rattle.std.specs.Option.{option_copied};
ghost use Rattle.jolie_trees.specs.Trees as spec;
ghost use Rattle.jolie_trees.specs.Data.{node, no_fields};

mod change;
mod children;
mod copied;
mod count;
mod counted;
mod growth;
mod measure;
mod push;
mod set;
mod undef;

use crate::path::{Path, Step};
use crate::root::Root;
use crate::text::Text;
pub use children::Children;
use sqlite_items::at;
use std::alloc::Global;
use std::collections::BTreeMap;
use std::marker::Model;

/// A root and, under each of finitely many names, a vector of trees.
#[cycle(tree)]
#[derive(Debug, Drop)]
pub struct Tree {
    root: Root,
    children: BTreeMap<Text, Members>,
    alloc: Global,
}

/// The trees under one name, one at least.
#[cycle(tree)]
#[derive(Debug, Drop)]
pub struct Members {
    list: Vec<Tree>,
}

impl Model for Tree {
    ghost use Rattle.jolie_trees.specs.Data.{Tree as Plain, node};
    ghost use Rattle.jolie_trees.specs.TreeCode.{tree_code};
    ghost use Rattle.jolie_trees.specs.TreeView.{fields_of};
    ghost use Rattle.jolie_trees.specs.Ranks.{tree_rank, fields_fall};
    ghost use Rattle.std.proofs.Common.{arith};

    ghost Value = { Plain };

    ghost coded = { tree_code };

    ghost view = { λ t. node t.root (fields_of t.children.entries) };

    ghost size = { tree_rank };

    ghost size_decreases = { λ t h. Prim.omega (arith, fields_fall t.children.entries) };
}

impl Model for Members {
    ghost use Rattle.jolie_trees.specs.Data.{Trees};
    ghost use Rattle.jolie_trees.specs.TreeCode.{trees_code};
    ghost use Rattle.jolie_trees.specs.TreeView.{trees_of};
    ghost use Rattle.jolie_trees.specs.Ranks.{trees_rank, trees_fall};
    ghost use Rattle.std.proofs.Common.{arith};

    ghost Value = { Trees };

    ghost coded = { trees_code };

    ghost view = { λ m. trees_of m.list.items };

    ghost size = { trees_rank };

    ghost size_decreases = { λ m h. Prim.omega (arith, trees_fall m.list.items) };
}

impl Tree {
    /// The tree of one node without a value, which takes no memory.
    pub fn void(alloc: Global) -> Tree
        ensures { result ≡ spec.void_tree }
    {
        Tree::of_root(alloc, Root::Void)
    }

    /// The tree of one node, which takes no memory.
    pub fn of_root(alloc: Global, root: Root) -> Tree
        ensures { result ≡ node root no_fields }
    {
        Tree {
            root,
            children: BTreeMap::new(alloc),
            alloc,
        }
    }

    pub fn root(&self) -> &Root
        ensures { result.now ≡ spec.root_of self.now }
    {
        &self.root
    }

    /// The node at a path.
    pub fn get(&self, path: &Path) -> Option<&Tree>
        ensures { option_copied result ≡ spec.get path.now.steps self.now }
    {
        self.at(path.steps.as_slice())
    }

    fn at(&self, steps: &[Step]) -> Option<&Tree>
        ensures { option_copied result ≡ spec.get steps.now self.now }
    {
        match steps {
            [] => Some(self),
            [step, rest @ ..] => match self.child(step) {
                Some(tree) => tree.at(rest),
                None => None,
            },
        }
    }

    fn child(&self, step: &Step) -> Option<&Tree>
        ensures { option_copied result ≡ spec.child step.now self.now }
    {
        match self.children.get(&step.name) {
            Some(members) => members.at(step.place()),
            None => None,
        }
    }
}

impl Members {
    fn at(&self, place: usize) -> Option<&Tree>
        ensures { option_copied result ≡ spec.nth place self.now }
    {
        at(self.list.as_slice(), place)
    }
}
