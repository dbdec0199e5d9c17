ghost use Rattle.std.specs.Prelude.{◌≡◌, Some};
ghost use Rattle.std.specs.Ordering.{nat_cmp};
ghost use Rattle.std.specs.Cmp.Lexicographic.{slice_cmp};
ghost use Rattle.std.specs.List.Sorted.{IsStrictlySortedBy};
ghost use Rattle.jolie_trees.specs.Data.{Tree as Plain, no_trees};
ghost use Rattle.jolie_trees.specs.Trees as spec;
ghost use Rattle.jolie_trees.specs.Extents.{extent_of, fields_extent, trees_extent, at_or_void, others};
ghost use Rattle.jolie_trees.specs.Trees.{children_of, names_of};

use super::measure::extent_of_all;
use super::{Members, Tree};
use crate::extent::Extent;
use crate::path::Step;
use crate::text::Text;

impl Tree {
    /// The extent that the tree would have if the node that the steps lead to had that one.
    #[cycle(growth)]
    pub(super) fn extent_with(&self, steps: &[Step], inner: Extent) -> Extent
        ensures { (f : Plain → Plain) → inner ≡ extent_of (f (at_or_void steps.now (Some self.now)))
            → result ≡ extent_of (spec.change steps.now f self.now) }
    {
        match steps {
            [] => inner,
            [step, rest @ ..] => self
                .extent_of_others(&step.name)
                .beside(self.vector_with(step, rest, inner))
                .under_a_node(),
        }
    }

    /// The extent of all children but those under a name.
    fn extent_of_others(&self, name: &Text) -> Extent
        ensures others { result ≡ fields_extent (others name.now (children_of self.now)) }
        ensures ordered { IsStrictlySortedBy (slice_cmp nat_cmp) (names_of (children_of self.now)) }
    {
        let mut all = Extent::NONE;
        for (key, members) in self.children.iter() {
            if *key != *name {
                all = all.beside(members.extent());
            }
        }
        all
    }

    /// The extent of the vector under the first step's name, if the node that all steps lead to
    /// had that one.
    #[cycle(growth)]
    fn vector_with(&self, step: &Step, rest: &[Step], inner: Extent) -> Extent
        ensures { (f : Plain → Plain) → inner ≡ extent_of (f (at_or_void rest.now (spec.child step.now self.now)))
            → result ≡ trees_extent (spec.change_nth (spec.index_of step.now) (spec.change rest.now f)
            (spec.under step.now.name (children_of self.now))) }
    {
        match self.children.get(&step.name) {
            Some(members) => members.extent_with(step.place(), rest, inner),
            None => made_vector(step.place(), rest, inner),
        }
    }
}

impl Members {
    #[cycle(growth)]
    fn extent_with(&self, place: usize, rest: &[Step], inner: Extent) -> Extent
        ensures { (f : Plain → Plain) → inner ≡ extent_of (f (at_or_void rest.now (spec.nth place self.now)))
            → result ≡ trees_extent (spec.change_nth place (spec.change rest.now f) self.now) }
    {
        let nodes = self.list.as_slice();
        if place < nodes.len() {
            extent_of_all(&nodes[..place])
                .beside(nodes[place].extent_with(rest, inner))
                .beside(extent_of_all(&nodes[place + 1..]))
        } else {
            extent_of_all(nodes).beside(made_vector(place - nodes.len(), rest, inner))
        }
    }
}

/// The extent of a vector that is made for one place, if the node that the steps lead to from there
/// had that one.
#[cycle(made)]
fn made_vector(place: usize, steps: &[Step], inner: Extent) -> Extent
    ensures { (f : Plain → Plain) → inner ≡ extent_of (f spec.void_tree)
        → result ≡ trees_extent (spec.change_nth place (spec.change steps.now f) no_trees) }
{
    Extent::of_nodes_alone(place).beside(made_node(steps, inner))
}

/// The extent of a node that is made, if the node that the steps lead to from there had that one.
#[cycle(made)]
fn made_node(steps: &[Step], inner: Extent) -> Extent
    ensures { (f : Plain → Plain) → inner ≡ extent_of (f spec.void_tree)
        → result ≡ extent_of (spec.change steps.now f spec.void_tree) }
{
    match steps {
        [] => inner,
        [step, rest @ ..] => made_vector(step.place(), rest, inner).under_a_node(),
    }
}
