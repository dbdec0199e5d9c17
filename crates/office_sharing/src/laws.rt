ghost use Rattle.office_sharing.specs.Steps.{BeginsSo, CommitsKeep, CopiesKeep, EndKeeps, GivingKeeps};
ghost use Rattle.office_sharing.specs.Steps.{JoinsKeep, LooksKeep, MakingKeeps, TakesKeep};

/// Does nothing: its clauses say that an office begins as the rule says, and that each kind of step keeps the rule.
pub fn steps_keep_the_rule()
    ensures begins { BeginsSo }
    ensures takes { TakesKeep }
    ensures commits { CommitsKeep }
    ensures gives { GivingKeeps }
    ensures looks { LooksKeep }
    ensures copies { CopiesKeep }
    ensures joins { JoinsKeep }
    ensures ends { EndKeeps }
    ensures makes { MakingKeeps }
{}
