ghost use Rattle.std.specs.Prelude.{◌≡◌};
ghost use Rattle.jolie_trees.specs.Limits.{in_u64};
ghost use Rattle.office_core.specs.Weights as spec;

use behaviour_tree::Outcome;
use jolie_trees::Tree;

/// The weight of a value, the last value of its type where it would be more.
pub fn weight(value: &Tree) -> u64
    ensures { result ≡ in_u64 (spec.weight value.now) }
{
    value
        .size()
        .saturating_mul(8)
        .saturating_add(value.text_bytes())
}

/// The weight of an answer: that of its value.
pub fn outcome_weight(outcome: &Outcome) -> u64
    ensures { result ≡ in_u64 (spec.outcome_weight outcome.now) }
{
    match outcome {
        Outcome::Value(value) => weight(value),
        Outcome::Fault { name: _, value } => weight(value),
        Outcome::Refused(_) => 0,
    }
}
