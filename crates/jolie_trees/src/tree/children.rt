ghost use Rattle.std.specs.Prelude.{◌≡◌, length, option_map};
ghost use Rattle.std.specs.Borrow.{sem};
ghost use Rattle.std.specs.Iterator.{at_most};
ghost use Rattle.std.specs.Map.Iter.{TakesFirst, ShowsInOrder};
ghost use Rattle.std.specs.Ordering.{nat_cmp};
ghost use Rattle.std.specs.Cmp.Lexicographic.{slice_cmp};
ghost use Rattle.std.specs.List.Sorted.{IsStrictlySortedBy};
ghost use Rattle.jolie_trees.specs.Trees as spec;
ghost use Rattle.jolie_trees.specs.Trees.{children_of, names_of};
ghost use Rattle.jolie_trees.specs.TreeView.{trees_of, fields_of};
ghost use Rattle.jolie_trees.specs.Children.{named_trees, or_none};
ghost use Rattle.jolie_trees.specs.Lending.{LendsMembers, LendsSlice};

use super::{Members, Tree};
use crate::root::Root;
use crate::text::Text;
use std::collections::btree_map;
use std::marker::Model;

/// The children of a node in ascending order of their names, each name with the trees under it.
#[derive(Drop)]
pub struct Children<'a> {
    entries: btree_map::Iter<'a, Text, Members>,
}

impl<'a> Model for Children<'a> {
    ghost use Rattle.std.specs.Prelude.{List, ℕ};
    ghost use Rattle.std.specs.Coded.{coded_list, coded×, coded_ℕ};
    ghost use Rattle.jolie_trees.specs.Data.{Trees};
    ghost use Rattle.jolie_trees.specs.TreeCode.{trees_code};

    ghost Value = { List (List ℕ × Trees) };

    ghost coded = { coded_list (coded× (coded_list coded_ℕ) trees_code) };

    ghost view = { λ c. c.entries };
}

impl<'a> Iterator for Children<'a> {
    type Item = (&'a Text, &'a [Tree]);

    ghost next_gives = { TakesFirst named_trees };

    ghost remaining = { λ s. at_most (length s) };

    fn next(&mut self) -> Option<(&'a Text, &'a [Tree])> {
        match self.entries.next() {
            Some((name, members)) => Some((name, members.as_slice())),
            None => None,
        }
    }
}

impl Tree {
    /// The children by name, in ascending order.
    pub fn children(&self) -> Children<'_>
        ensures all { fields_of result ≡ children_of self.now }
        ensures runs { ShowsInOrder named_trees }
        ensures ordered { IsStrictlySortedBy (slice_cmp nat_cmp) (names_of (children_of self.now)) }
    {
        Children {
            entries: self.children.iter(),
        }
    }

    /// The trees under a name, none where the name is not there.
    pub fn members(&self, name: &Text) -> &[Tree]
        ensures { trees_of result.now ≡ spec.under name.now (children_of self.now) }
    {
        match self.children.get(name) {
            Some(members) => members.as_slice(),
            None => &[],
        }
    }

    /// The trees under a name where it is there, to be written.
    pub fn members_mut(&mut self, name: &Text) -> Option<&mut Members>
        ensures* writes_back { sem 𝓛 (LendsMembers self.entry name.now result) }
        ensures value { or_none (option_map (λ x. x.now) result) ≡ spec.under name.now (children_of self.old) }
        ensures ordered { IsStrictlySortedBy (slice_cmp nat_cmp) (names_of (children_of self.old)) }
    {
        match self.children.get_mut(name) {
            Some(members) => Some(members),
            None => None,
        }
    }

    /// Puts another root in place of the node's and leaves its children.
    pub fn put_root(&mut self, root: Root)
        ensures { self.new ≡ spec.with_root root self.old }
    {
        self.root = root;
    }
}

impl Members {
    fn as_slice(&self) -> &[Tree]
        ensures { trees_of result.now ≡ self.now }
    {
        self.list.as_slice()
    }

    /// The trees, to be written. They stay as many as they are.
    pub fn as_mut_slice(&mut self) -> &mut [Tree]
        ensures* writes_back { sem 𝓛 (LendsSlice self.entry result) }
        ensures value { trees_of result.now ≡ self.old }
    {
        self.list.as_mut_slice()
    }
}
