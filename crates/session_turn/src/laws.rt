ghost use Rattle.session_turn.specs.Laws.{KeptAgrees, MayAsk, NamesByThis};

use session_calculus::runs_keep_their_promises;

/// Does nothing: its clause says that what turns keep is a run of the service that ends where the session stands, and
/// agrees with the history.
pub fn kept_sessions_agree()
    ensures agrees { KeptAgrees }
{}

/// Does nothing: its clause says that what the events of a session of a checked program ask of the office, it may ask.
pub fn sessions_may_ask()
    ensures asks { MayAsk }
{
    runs_keep_their_promises();
}

/// Does nothing: its clause says that in a run of a checked program scopes name themselves by `this` alone.
pub fn scopes_name_themselves_by_this()
    ensures named { NamesByThis }
{}
