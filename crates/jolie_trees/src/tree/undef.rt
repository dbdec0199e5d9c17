ghost use Rattle.std.specs.Prelude.{◌≡◌, ◌↔◌, IsTrue};
ghost use Rattle.jolie_trees.specs.Data.{no_trees};
ghost use Rattle.jolie_trees.specs.Trees as spec;
ghost use Rattle.jolie_trees.specs.Changes.{undef_below};

use super::{Members, Tree};
use crate::path::{Path, Step};

impl Tree {
    /// Takes away the nodes that a path names: the whole vector, where its last step has no index.
    pub fn undef(&mut self, path: &Path)
        ensures { self.new ≡ spec.undef path.now.steps self.old }
    {
        self.undef_along(path.steps.as_slice());
    }

    #[cycle(undef)]
    fn undef_along(&mut self, steps: &[Step])
        ensures { self.new ≡ spec.undef steps.now self.old }
    {
        let [step, rest @ ..] = steps else {
            return;
        };
        let Some(members) = self.children.get_mut(&step.name) else {
            return;
        };
        members.undef_below(step, rest);
        if members.is_empty() {
            drop(self.children.remove(&step.name));
        }
    }
}

impl Members {
    /// Takes away what the steps name, the first of which leads into this vector.
    #[cycle(undef)]
    fn undef_below(&mut self, step: &Step, rest: &[Step])
        ensures { self.new ≡ undef_below step.now rest.now self.old }
    {
        match rest {
            [] => self.leave(step.index),
            _ => match self.list.get_mut(step.place()) {
                Some(node) => node.undef_along(rest),
                None => {}
            },
        }
    }

    /// Takes away the node of an index, or all nodes where there is none.
    fn leave(&mut self, index: Option<u32>)
        ensures { self.new ≡ spec.left_of index self.old }
    {
        match index {
            None => self.list.clear(),
            Some(index) => {
                let place = index as usize;
                if place < self.list.len() {
                    drop(self.list.remove(place));
                }
            }
        }
    }

    fn is_empty(&self) -> bool
        ensures { IsTrue result ↔ (self.now ≡ no_trees) }
    {
        self.list.is_empty()
    }
}
