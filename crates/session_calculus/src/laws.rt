ghost use Rattle.session_calculus.specs.Laws.{BeginsNormal, EndsForGood, EndsByFinish, EndsClean, IsOfItsStrand, GoesOn, AnswersAll, EndsAnswered, WaitsForAll};
ghost use Rattle.session_calculus.specs.Reached.{KillKeepsCalls, ThrowKeepsCalls, RaisesUnblocked};
ghost use Rattle.session_calculus.specs.Sound.{NoFaultIsAbsent};

/// Does nothing: its clauses say what holds of every event and of every run.
pub fn runs_keep_their_promises()
    ensures begun { BeginsNormal }
    ensures for_good { EndsForGood }
    ensures finish { EndsByFinish }
    ensures clean { EndsClean }
    ensures strand { IsOfItsStrand }
    ensures one_run { GoesOn }
    ensures answered { AnswersAll }
    ensures at_end { EndsAnswered }
    ensures waited { WaitsForAll }
    ensures kill { KillKeepsCalls }
    ensures throw { ThrowKeepsCalls }
    ensures unblocked { RaisesUnblocked }
    ensures there { NoFaultIsAbsent }
{}
