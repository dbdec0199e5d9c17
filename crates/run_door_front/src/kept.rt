//! What a front over doors keeps.
ghost use Rattle.std.specs.Prelude.{◌≡◌, [], true, false};
ghost use Rattle.run_door_front.specs.Keeping.{Keeping, IsOrdered};

use crate::link::Client;
use crate::port::Listener;
use outside_doors::Door;
use std::alloc::Global;
use std::marker::Model;

/// What a front over doors keeps: its doors, its connections in the order in which they were accepted, the numbers of
/// those that are open and of those whose request is whole, in the order in which these became so, of which connection
/// each posting is, how many it accepts at most, whether it halted, and whether memory ran out.
#[derive(Drop)]
pub struct Kept<D: Door + Drop> {
    pub(crate) doors: Vec<Listener<D>>,
    pub(crate) connections: Vec<Client<D::W>>,
    pub(crate) opened: Vec<usize>,
    pub(crate) queue: Vec<usize>,
    pub(crate) traffics: Vec<usize>,
    pub(crate) most: u32,
    pub(crate) halted: bool,
    pub(crate) spent: bool,
}

impl<D: Door + Drop> Model for Kept<D> {
    ghost use Rattle.std.specs.Prelude.{◌≡◌, false};
    ghost use Rattle.std.specs.Coded.{codes};
    ghost use Rattle.jolie_trees.specs.contracts.tree.Tree as tree;
    ghost use Rattle.run_door_front.specs.Keeping.{Keeping, IsOrdered};

    ghost Value = { Keeping };

    ghost coded = { Prim.hlevel (codes, tree.the_row.coded) };

    ghost view = { λ k. record {
      doors = k.doors.items;
      connections = k.connections.items;
      opened = k.opened.items;
      queue = k.queue.items;
      traffics = k.traffics.items;
      most = k.most;
      halted = k.halted;
      spent = k.spent;
    } };

    ghost invariant = { λ k. k.spent ≡ false → IsOrdered k.connections.items k.opened.items k.queue.items };
}

impl<D: Door + Drop> Kept<D> {
    /// With these doors, and before anything came. So many connections are accepted at most.
    pub fn new(alloc: Global, doors: Vec<Listener<D>>, most: u32) -> Kept<D>
        ensures doors { result.doors ≡ doors.items }
        ensures connections { result.connections ≡ [] }
        ensures opened { result.opened ≡ [] }
        ensures queue { result.queue ≡ [] }
        ensures traffics { result.traffics ≡ [] }
        ensures most { result.most ≡ most }
        ensures halted { result.halted ≡ false }
        ensures spent { result.spent ≡ false }
    {
        Kept {
            doors,
            connections: Vec::new(alloc),
            opened: Vec::new(alloc),
            queue: Vec::new(alloc),
            traffics: Vec::new(alloc),
            most,
            halted: false,
            spent: false,
        }
    }

    /// Whether the front halted: its notes failed.
    pub fn halted(&self) -> bool
        ensures { result ≡ self.now.halted }
    {
        self.halted
    }

    /// Whether memory ran out in a call: then nothing is sent of what passed.
    pub fn spent(&self) -> bool
        ensures { result ≡ self.now.spent }
    {
        self.spent
    }

    /// Nothing more is written.
    pub(crate) fn halt(&mut self)
        ensures { self.new ≡ record self.old { halted = true } }
    {
        self.halted = true;
    }

    /// The doors and the connections.
    pub fn into_parts(self) -> (Vec<Listener<D>>, Vec<Client<D::W>>)
        ensures doors { result.0.items ≡ self.doors }
        ensures connections { result.1.items ≡ self.connections }
    {
        let Kept {
            doors,
            connections,
            opened: _,
            queue: _,
            traffics: _,
            most: _,
            halted: _,
            spent: _,
        } = self;
        (doors, connections)
    }
}
