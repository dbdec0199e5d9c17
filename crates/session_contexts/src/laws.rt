ghost use Rattle.session_contexts.specs.Laws.{FaultsAreSeenInside, KillsGoInward, MembersSettleAlone, MovesGoInside, NormalFormsStayTidy, NormalGoesOutward, ReadyAreSeenInside, ScopesStandOutward, ThrowsGoOutward, StrandsStandInside};

/// Its clauses say what each walk of the calculus makes of a form in a context.
pub fn contexts_are_walked()
    ensures tidy { NormalFormsStayTidy }
    ensures normal { NormalGoesOutward }
    ensures members { MembersSettleAlone }
    ensures strands { StrandsStandInside }
    ensures faults { FaultsAreSeenInside }
    ensures ready { ReadyAreSeenInside }
    ensures moves { MovesGoInside }
    ensures throws { ThrowsGoOutward }
    ensures kills { KillsGoInward }
    ensures scopes { ScopesStandOutward }
{}
