ghost use Rattle.std.specs.Prelude.{◌≡◌};
ghost use Rattle.jolie_trees.specs.Limits.{in_u32};
ghost use Rattle.jolie_trees.specs.Trees as spec;
ghost use Rattle.jolie_trees.specs.Changes.{count_in};

use super::{Members, Tree};
use crate::path::{Path, Step};

impl Tree {
    /// How many nodes a path names: the whole vector, where its last step has no index.
    pub fn count(&self, path: &Path) -> u32
        ensures { result ≡ in_u32 (spec.count path.now.steps self.now) }
    {
        self.count_along(path.steps.as_slice())
    }

    fn count_along(&self, steps: &[Step]) -> u32
        ensures { result ≡ in_u32 (spec.count steps.now self.now) }
    {
        match steps {
            [] => 1,
            [last] => self.count_under(last),
            [step, rest @ ..] => match self.child(step) {
                Some(node) => node.count_along(rest),
                None => 0,
            },
        }
    }

    fn count_under(&self, last: &Step) -> u32
        ensures { result ≡ in_u32 (spec.count_at last.now.name last.now.index self.now) }
    {
        match self.children.get(&last.name) {
            Some(members) => members.count(last.index),
            None => 0,
        }
    }
}

impl Members {
    fn count(&self, index: Option<u32>) -> u32
        ensures { result ≡ in_u32 (count_in index self.now) }
    {
        match index {
            None => self.list.len().min(u32::MAX as usize) as u32,
            Some(index) => u32::from((index as usize) < self.list.len()),
        }
    }
}
