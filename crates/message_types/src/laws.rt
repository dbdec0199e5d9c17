ghost use Rattle.message_types.specs.Breaches.{IsBreachUnlessConforms, IsBreachUnlessFits};

/// There is a node that breaks its type exactly where the tree does not fit.
pub fn breaches_are_where_trees_do_not_fit()
    ensures { IsBreachUnlessFits }
{}

/// There is a breach exactly where the tree does not conform.
pub fn breaches_are_where_trees_do_not_conform()
    ensures { IsBreachUnlessConforms }
{}
