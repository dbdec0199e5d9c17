//! The hints of a place.

ghost use Rattle.std.specs.Prelude.{◌≡◌, IfOk, MatchBool};
ghost use Rattle.explain_hints.specs.MayStand.{AreKept, AreToldAt, IsSaidBy, IsTold};

use crate::hint::{HINTS, Hint, SaidBy};
use crate::prefix::Prefix;
use std::alloc::{AllocError, Global};

/// What a person may be told of what may stand at a place: the hints that may stand there, in the table's order,
/// without those that another of them says too. Where the bytes before the place begin no file, there is none.
pub fn hints_at(alloc: Global, text: &[u8], at: usize) -> Result<Vec<Hint>, AllocError>
    ensures { IfOk result (λ told. AreToldAt text.now at told.items) }
{
    let prefix = Prefix::new(alloc, text, at)?;
    told_among(alloc, &prefix, &HINTS)
}

/// The hints among these that are told.
#[tactic(auto, using(crate::proofs::Kept::kept_more, crate::proofs::Kept::left_more, crate::proofs::Kept::kept_at, crate::proofs::Kept::left_at, crate::proofs::Kept::all_kept))]
fn told_among(alloc: Global, prefix: &Prefix, hints: &[Hint]) -> Result<Vec<Hint>, AllocError>
    ensures { IfOk result (λ told. AreKept (IsTold prefix.now.text prefix.now.at) hints.now told.items) }
{
    let mut told = Vec::new(alloc);
    for hint in hints {
        if !is_told(alloc, prefix, *hint)? {
            continue;
        }
        told.push(*hint)?;
    }
    Ok(told)
}

/// Whether a hint may stand at a place, and no other that may stand says it too.
#[tactic(auto, using(crate::proofs::Kept::told, crate::proofs::Kept::untold, crate::proofs::Kept::unsaid))]
fn is_told(alloc: Global, prefix: &Prefix, hint: Hint) -> Result<bool, AllocError>
    ensures { IfOk result (λ told. MatchBool told (IsTold prefix.now.text prefix.now.at hint)
        (IsTold prefix.now.text prefix.now.at hint → ⊥)) }
{
    if !prefix.may_stand(alloc, hint)? {
        return Ok(false);
    }
    if is_said(alloc, prefix, hint.said_by())? {
        return Ok(false);
    }
    Ok(true)
}

/// Whether what says a hint too may stand at a place.
#[tactic(auto, using(crate::proofs::Kept::never, crate::proofs::Kept::one, crate::proofs::Kept::other))]
fn is_said(alloc: Global, prefix: &Prefix, other: SaidBy) -> Result<bool, AllocError>
    ensures { IfOk result (λ said. MatchBool said (IsSaidBy prefix.now.text prefix.now.at other)
        (IsSaidBy prefix.now.text prefix.now.at other → ⊥)) }
{
    match other {
        SaidBy::Nothing => Ok(false),
        SaidBy::Value => prefix.may_stand(alloc, Hint::Value),
        SaidBy::Statement => prefix.may_stand(alloc, Hint::Statement),
        SaidBy::ValueOrStatement => {
            if prefix.may_stand(alloc, Hint::Value)? {
                return Ok(true);
            }
            prefix.may_stand(alloc, Hint::Statement)
        }
        SaidBy::Operator => prefix.may_stand(alloc, Hint::Operator),
    }
}
