ghost use Rattle.jolie_trees.specs.Laws.{KeepsWhatIsSet, UndefKeepsLimits, UndefTakes};

/// What a tree is given at a path, it has there.
pub fn trees_keep_what_is_set()
    ensures { KeepsWhatIsSet }
{}

/// A tree within the limits of a store stays so where nodes are taken away.
pub fn undef_keeps_limits()
    ensures { UndefKeepsLimits }
{}

/// What is taken away of a tree and what is left are all of its nodes.
pub fn undef_takes()
    ensures { UndefTakes }
{}
