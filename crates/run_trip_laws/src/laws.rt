ghost use Rattle.run_trip_laws.specs.Laws.{ComesToVoid, MakesTrip, NotesLine, SettlesAgain, TravelsSo};

/// Does nothing: its clauses say what one call that goes out and comes back makes of a history.
pub fn calls_go_out_in_order()
    ensures settled { SettlesAgain }
    ensures noted { NotesLine }
    ensures travels { MakesTrip }
{}

/// Does nothing: its clauses say what calls that went out came to in the end.
pub fn calls_that_went_out_came_back()
    ensures travelled { TravelsSo }
    ensures void { ComesToVoid }
{}
