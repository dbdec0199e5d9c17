ghost use Rattle.session_events.specs.Asked.{AsksForIt, HasGift};

/// Does nothing: its clauses say that what a place asks for is what its event asks for, and that a place which asks has
/// an event for some gift.
pub fn places_ask_for_their_events()
    ensures asks { AsksForIt }
    ensures gift { HasGift }
{}
