ghost use Rattle.std.specs.Prelude.{◌≡◌, ◌+◌, max, min};
ghost use Rattle.jolie_trees.specs.Limits.{in_u64, in_u32};
ghost use Rattle.jolie_trees.specs.Extents.{extent};

/// How many nodes and levels a tree or several trees beside one another have.
#[derive(Clone, Copy, Debug, PartialEq, Eq)]
pub(crate) struct Extent {
    pub nodes: u64,
    pub levels: u32,
}

impl Extent {
    pub const NONE: Extent = Extent {
        nodes: 0,
        levels: 0,
    };

    /// The extent of so many nodes alone, beside one another.
    pub fn of_nodes_alone(nodes: usize) -> Extent
        ensures { result ≡ extent nodes (min 1 nodes) }
    {
        Extent {
            nodes: nodes as u64,
            levels: nodes.min(1) as u32,
        }
    }

    /// The extent of these and others beside one another.
    pub fn beside(self, other: Extent) -> Extent
        ensures nodes { result.nodes ≡ in_u64 (self.nodes + other.nodes) }
        ensures levels { result.levels ≡ max self.levels other.levels }
    {
        Extent {
            nodes: self.nodes.saturating_add(other.nodes),
            levels: self.levels.max(other.levels),
        }
    }

    /// The extent of a node with these below it.
    pub fn under_a_node(self) -> Extent
        ensures nodes { result.nodes ≡ in_u64 (self.nodes + 1) }
        ensures levels { result.levels ≡ in_u32 (self.levels + 1) }
    {
        Extent {
            nodes: self.nodes.saturating_add(1),
            levels: self.levels.saturating_add(1),
        }
    }
}
