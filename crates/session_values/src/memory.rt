ghost use Rattle.std.specs.Prelude.{◌≡◌, true};
ghost use Rattle.jolie_trees.specs.Limits.{is_store};
ghost use Rattle.jolie_trees.specs.Trees.{size};
ghost use Rattle.jolie_trees.specs.declared.root.Root.{Root as PlainRoot};

use jolie_trees::{Path, Root, Tree};
use std::alloc::AllocError;

/// What events change beside the terms and their handlers: the store and the number of its nodes, the next strand and
/// the next call.
#[derive(Drop)]
pub struct Memory {
    pub store: Tree,
    pub nodes: u64,
    pub next: u64,
    pub call: u32,
    pub ghost within: { is_store store ≡ true },
    pub ghost counted: { nodes ≡ size store },
}

impl Memory {
    ghost use Rattle.std.specs.Prelude.{IfOk, if◌then◌else◌};
    ghost use Rattle.jolie_trees.specs.Trees as spec;
    ghost use Rattle.session_values.specs.Kept.{Keeps};

    /// Puts a tree at a path, and says whether that passes no limit; else the store stays.
    #[tactic(auto, using(crate::proofs::Limits::fits, crate::proofs::Limits::unfit))]
    pub fn put(&mut self, path: &Path, value: Tree) -> Result<bool, AllocError>
        ensures done { IfOk result (λ done. done ≡ is_store (spec.set path.now.steps value self.old.store)) }
        ensures store { IfOk result
            (λ done. self.new.store ≡ (if done then spec.set path.now.steps value self.old.store
            else self.old.store)) }
        ensures kept { Keeps self.old self.new }
    {
        let Some(nodes) = self.store.nodes_with(self.nodes, path, &value) else {
            return Ok(false);
        };
        self.store.put_at(path, value)?;
        self.nodes = nodes;
        Ok(true)
    }

    /// Puts a root at a path, and says whether that passes no limit; else the store stays.
    #[tactic(auto, using(crate::proofs::Limits::fits, crate::proofs::Limits::unfit))]
    pub fn put_root(&mut self, path: &Path, root: Root) -> Result<bool, AllocError>
        ensures done { IfOk result (λ done. done ≡ is_store (spec.set_root path.now.steps root self.old.store)) }
        ensures store { IfOk result
            (λ done. self.new.store ≡ (if done then spec.set_root path.now.steps root self.old.store
            else self.old.store)) }
        ensures kept { Keeps self.old self.new }
    {
        let Some(nodes) = self.store.nodes_with_root(self.nodes, path) else {
            return Ok(false);
        };
        self.store.put_root_at(path, root)?;
        self.nodes = nodes;
        Ok(true)
    }

    /// Takes away the nodes that a path names.
    #[tactic(auto, using(crate::proofs::Limits::lessened, crate::proofs::Limits::left))]
    pub fn take_away(&mut self, path: &Path)
        ensures store { self.new.store ≡ spec.undef path.now.steps self.old.store }
        ensures kept { Keeps self.old self.new }
    {
        let taken = self.store.taken_by(path);
        self.store.undef(path);
        self.nodes = self.nodes.saturating_sub(taken);
    }

    /// Whether the store would keep its limits with a tree at a path.
    #[tactic(auto, using(crate::proofs::Limits::is_some_fits))]
    pub fn fits_set(&self, path: &Path, value: &Tree) -> bool
        ensures { result ≡ is_store (spec.set path.now.steps value.now self.now.store) }
    {
        self.store.nodes_with(self.nodes, path, value).is_some()
    }

    /// Whether the store would keep its limits with a root at a path, which one it be.
    #[tactic(auto, using(crate::proofs::Limits::is_some_fits))]
    pub fn fits_root(&self, path: &Path) -> bool
        ensures { (r : PlainRoot) → result ≡ is_store (spec.set_root path.now.steps r self.now.store) }
    {
        self.store.nodes_with_root(self.nodes, path).is_some()
    }
}
