ghost use Rattle.check_base.specs.TypeNames.{BehindNamesInAny, LeadsBackInAny};

/// Names of types are followed as far as any number of steps leads.
#[tactic(auto, using(crate::proofs::TypeNames::leads_back_in_any))]
pub fn type_names_are_followed()
    ensures back { LeadsBackInAny }
    ensures behind { BehindNamesInAny }
{}
