ghost use Rattle.run_quiet_laws.specs.Laws.{
  AdoptionsLeave,
  BirthsKeepWithin,
  EndsAsRun,
  LooksSay,
  NothingHappens,
  OthersLeave,
  StaysStill,
};

/// Does nothing: its clauses say what looks, adoptions and events leave of a run in which nothing is left to do.
pub fn quiet_runs_stay_quiet()
    ensures looks { LooksSay }
    ensures adoptions { AdoptionsLeave }
    ensures others { OthersLeave }
    ensures nothing { NothingHappens }
    ensures still { StaysStill }
    ensures births { BirthsKeepWithin }
{}

/// Does nothing: its clause says that what one worker did to the end is a run.
pub fn runs_that_ended_are_runs()
    ensures ended { EndsAsRun }
{}
