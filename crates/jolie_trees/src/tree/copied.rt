ghost use Rattle.std.specs.Prelude.{◌≡◌, IfOk};

use super::{Members, Tree};
use crate::text::Text;
use std::alloc::{AllocError, Global};
use std::collections::BTreeMap;

impl Tree {
    #[cycle(copied)]
    pub fn copied(&self) -> Result<Tree, AllocError>
        ensures { IfOk result (λ t. t ≡ self.now) }
    {
        let root = self.root.copied()?;
        let children = copied_children(self.alloc, &self.children)?;
        Ok(Tree {
            root,
            children,
            alloc: self.alloc,
        })
    }
}

impl Members {
    #[cycle(copied)]
    fn copied(&self) -> Result<Members, AllocError>
        ensures { IfOk result (λ copies. copies ≡ self.now) }
    {
        let mut list = Vec::new(*self.list.allocator());
        for tree in &self.list {
            list.push(tree.copied()?)?;
        }
        Ok(Members { list })
    }
}

#[cycle(copied)]
fn copied_children(
    alloc: Global,
    children: &BTreeMap<Text, Members>,
) -> Result<BTreeMap<Text, Members>, AllocError>
    ensures { IfOk result (λ m. m.entries ≡ children.now.entries) }
{
    let mut copies = BTreeMap::new(alloc);
    for (key, members) in children.iter() {
        let name = key.copied()?;
        drop(copies.insert(name, members.copied()?)?);
    }
    Ok(copies)
}
