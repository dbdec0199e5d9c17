ghost use Rattle.std.specs.Prelude.{◌≡◌, ◌<◌, OnOk, OnErr, take, vec_len};
ghost use Rattle.jolie_trees.specs.Trees as spec;
ghost use Rattle.jolie_trees.specs.Changes.{applied, with_vector};
ghost use Rattle.jolie_trees.specs.TreeView.{trees_of};

use super::{Members, Tree};
use crate::path::Step;
use crate::root::Root;
use crate::text::Text;
use std::alloc::AllocError;

/// What becomes of the node that a path leads to.
#[derive(Debug, Drop)]
pub(super) enum Change {
    Whole(Tree),
    OnlyRoot(Root),
}

impl Change {
    fn apply(self, node: &mut Tree)
        ensures { node.new ≡ applied self node.old }
    {
        match self {
            Change::Whole(value) => *node = value,
            Change::OnlyRoot(root) => node.root = root,
        }
    }
}

impl Tree {
    /// Changes the node that the steps lead to, and makes the nodes that are missing.
    #[cycle(change)]
    pub(super) fn change(&mut self, steps: &[Step], change: Change) -> Result<(), AllocError>
        ensures ok { OnOk result (self.new ≡ spec.change steps.now (applied change) self.old) }
        ensures err { OnErr result (self.new ≡ self.old) }
    {
        match steps {
            [] => {
                change.apply(self);
                Ok(())
            }
            [step, rest @ ..] => match self.children.get_mut(&step.name) {
                Some(members) => members.change(step.place(), rest, change),
                None => {
                    let mut members = Members {
                        list: Vec::new(self.alloc),
                    };
                    members.change(step.place(), rest, change)?;
                    self.add(&step.name, members)
                }
            },
        }
    }

    /// Puts a vector under a name.
    pub(super) fn add(&mut self, name: &Text, members: Members) -> Result<(), AllocError>
        ensures ok { OnOk result (self.new ≡ with_vector name.now members self.old) }
        ensures err { OnErr result (self.new ≡ self.old) }
    {
        let name = name.copied()?;
        drop(self.children.insert(name, members)?);
        Ok(())
    }
}

impl Members {
    #[cycle(change)]
    fn change(&mut self, place: usize, steps: &[Step], change: Change) -> Result<(), AllocError>
        ensures ok { OnOk result (self.new
            ≡ spec.change_nth place (spec.change steps.now (applied change)) self.old) }
        ensures err { OnErr result (self.new ≡ self.old) }
    {
        let count = self.list.len();
        let changed = change_padded(&mut self.list, place, steps, change);
        if changed.is_err() {
            self.list.truncate(count);
        }
        changed
    }
}

/// Changes the node at a place, with void nodes for those that are missing. Where memory runs out,
/// some of these may be left at the end.
#[cycle(change)]
fn change_padded(
    nodes: &mut Vec<Tree>,
    place: usize,
    steps: &[Step],
    change: Change,
) -> Result<(), AllocError>
    ensures ok { OnOk result (trees_of nodes.new.items
        ≡ spec.change_nth place (spec.change steps.now (applied change)) (trees_of nodes.old.items)) }
    ensures err { OnErr result (take (vec_len nodes.old) nodes.new.items ≡ nodes.old.items) }
{
    pad(nodes, place)?;
    nodes[place].change(steps, change)
}

/// Puts void nodes at the end until there is a node at the place.
fn pad(nodes: &mut Vec<Tree>, place: usize) -> Result<(), AllocError>
    ensures there { OnOk result (place < vec_len nodes.new) }
    ensures padded { OnOk result (trees_of nodes.new.items
        ≡ spec.change_nth place (λ t. t) (trees_of nodes.old.items)) }
    ensures kept { take (vec_len nodes.old) nodes.new.items ≡ nodes.old.items }
{
    let alloc = *nodes.allocator();
    while nodes.len() <= place {
        nodes.push(Tree::void(alloc))?;
    }
    Ok(())
}
