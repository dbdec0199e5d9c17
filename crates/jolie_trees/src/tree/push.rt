ghost use Rattle.std.specs.Prelude.{◌≡◌, OnOk, OnErr};
ghost use Rattle.jolie_trees.specs.Trees as spec;

use super::{Members, Tree};
use crate::text::Text;
use std::alloc::AllocError;

impl Tree {
    /// Puts a child at the end of the vector of a name.
    pub fn push(&mut self, name: &Text, child: Tree) -> Result<(), AllocError>
        ensures ok { OnOk result (self.new ≡ spec.push name.now child self.old) }
        ensures err { OnErr result (self.new ≡ self.old) }
    {
        match self.children.get_mut(name) {
            Some(members) => members.push(child),
            None => {
                let mut list = Vec::new(self.alloc);
                list.push(child)?;
                self.add(name, Members { list })
            }
        }
    }
}

impl Members {
    fn push(&mut self, child: Tree) -> Result<(), AllocError>
        ensures ok { OnOk result (self.new ≡ spec.with_last child self.old) }
        ensures err { OnErr result (self.new ≡ self.old) }
    {
        self.list.push(child)?;
        Ok(())
    }
}
