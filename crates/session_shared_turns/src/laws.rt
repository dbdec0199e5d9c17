ghost use Rattle.session_shared_turns.specs.Stays.{ActsStill, HasStill, IsNextStill, IsOpenStill, MayStill, TookStill, WantsStill};

/// Does nothing: its clauses say that entries of others leave what a session may ask, and each condition of its calls.
pub fn what_a_session_may_ask_stays()
    ensures may { MayStill }
    ensures acts { ActsStill }
    ensures wanted { WantsStill }
    ensures has { HasStill }
    ensures took { TookStill }
    ensures open { IsOpenStill }
    ensures next { IsNextStill }
{}
