//! Correlation sets: set 1 of the variable 10, and set 2 of the variables 20 and 21.
ghost use Rattle.std.specs.Prelude.{◌≡◌, [], ◌∷◌, true, IfOk};
ghost use Rattle.correlation.specs.Sessions.{are_sets};

use correlation::{SetOf, Variables};
use std::alloc::{AllocError, Global};
use test_values::WordError;

/// The sets that a word names.
pub fn sets_named(alloc: Global, word: &str) -> Result<Vec<SetOf>, WordError>
    ensures { IfOk result (λ sets. are_sets sets.items ≡ true) }
{
    match word {
        "single" => Ok(single(alloc)?),
        "pair" => Ok(pair(alloc)?),
        "both" => Ok(both(alloc)?),
        "none" => Ok(Vec::new(alloc)),
        _ => Err(WordError::Unknown),
    }
}

#[tactic(auto, using(crate::proofs::OwnSets::first_alone))]
fn single(alloc: Global) -> Result<Vec<SetOf>, AllocError>
    ensures { IfOk result (λ sets. are_sets sets.items ≡ true) }
{
    Ok(vec![in alloc; first_set(alloc)?]?)
}

#[tactic(auto, using(crate::proofs::OwnSets::second_alone))]
fn pair(alloc: Global) -> Result<Vec<SetOf>, AllocError>
    ensures { IfOk result (λ sets. are_sets sets.items ≡ true) }
{
    Ok(vec![in alloc; second_set(alloc)?]?)
}

#[tactic(auto, using(crate::proofs::OwnSets::both_together))]
fn both(alloc: Global) -> Result<Vec<SetOf>, AllocError>
    ensures { IfOk result (λ sets. are_sets sets.items ≡ true) }
{
    Ok(vec![in alloc; first_set(alloc)?, second_set(alloc)?]?)
}

fn first_set(alloc: Global) -> Result<SetOf, AllocError>
    ensures { IfOk result (λ set. set ≡ record { set = 1; variables = 10 ∷ [] }) }
{
    Ok(SetOf {
        set: 1,
        variables: Variables::from_vec(vec![in alloc; 10]?),
    })
}

fn second_set(alloc: Global) -> Result<SetOf, AllocError>
    ensures { IfOk result (λ set. set ≡ record { set = 2; variables = 20 ∷ 21 ∷ [] }) }
{
    Ok(SetOf {
        set: 2,
        variables: Variables::from_vec(vec![in alloc; 20, 21]?),
    })
}
