ghost use Rattle.session_calculus.specs.Compensations.{CompensatesOnce, EntriesComeFromEvents, EntriesWerePut, NamesNoScope};
ghost use Rattle.session_calculus.specs.Laws.{AnswersOnce, AsksOneThing, NormalStays, SendsOnce};
ghost use Rattle.session_calculus.specs.Members.{AddsFew, DrawsFew};
ghost use Rattle.session_calculus.specs.Sound.{BeginsSound, StaysSound};
ghost use Rattle.session_laws.specs.Strands.{StrandsDifferInRuns};

use session_calculus::runs_keep_their_promises;

/// Its clauses say what holds of every event and of every run, beside what `runs_keep_their_promises` says.
pub fn further_laws_of_runs()
    ensures asks { AsksOneThing }
    ensures sent { SendsOnce }
    ensures answered { AnswersOnce }
    ensures normal { NormalStays }
    ensures begins { BeginsSound }
    ensures stays { StaysSound }
    ensures adds { AddsFew }
    ensures draws { DrawsFew }
    ensures differ { StrandsDifferInRuns }
    ensures sources { EntriesComeFromEvents }
    ensures put { EntriesWerePut }
    ensures keys { NamesNoScope }
    ensures spent { CompensatesOnce }
{
    runs_keep_their_promises();
}
