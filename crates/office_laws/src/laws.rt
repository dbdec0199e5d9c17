ghost use Rattle.office_laws.specs.Laws.{BindsFirst, FindsRoom, WritesFirst};

/// Does nothing: a message that is routed to a session finds room in its box.
pub fn routed_messages_find_room()
    ensures room { FindsRoom }
{}

/// Does nothing: what a message brings of the variables of the session that it starts is bound.
pub fn first_values_are_bound()
    ensures bound { BindsFirst }
    ensures written { WritesFirst }
{}
