//! What may stand at a place, as a person reads it.

ghost use Rattle.std.specs.Prelude.{◌≡◌, ◌++◌, IfOk, OnOk};
ghost use Rattle.explain_text.specs.Explained as spec;

use explain_hints::Hint;
use std::alloc::{AllocError, Global};

/// Hints with commas between, and "or" before the last.
pub fn listed(alloc: Global, hints: &[Hint]) -> Result<Vec<u8>, AllocError>
    ensures { IfOk result (λ bytes. bytes.items ≡ spec.listed hints.now) }
{
    let mut bytes = Vec::new(alloc);
    add_listed(&mut bytes, hints)?;
    Ok(bytes)
}

/// Adds hints with commas between, and "or" before the last.
#[tactic(auto, using(crate::proofs::Pieces::two_more))]
fn add_listed(bytes: &mut Vec<u8>, hints: &[Hint]) -> Result<(), AllocError>
    ensures { OnOk result (bytes.new.items ≡ bytes.old.items ++ spec.listed hints.now) }
{
    match hints {
        [] => Ok(()),
        [first, rest @ ..] => {
            bytes.extend_from_slice(first.words().as_bytes())?;
            add_further(bytes, rest)?;
            Ok(())
        }
    }
}

/// Adds hints after another.
#[tactic(auto, using(crate::proofs::Pieces::two_more, crate::proofs::Pieces::three_more))]
fn add_further(bytes: &mut Vec<u8>, hints: &[Hint]) -> Result<(), AllocError>
    ensures { OnOk result (bytes.new.items ≡ bytes.old.items ++ spec.further hints.now) }
{
    match hints {
        [] => Ok(()),
        [last] => {
            bytes.extend_from_slice(" or ".as_bytes())?;
            bytes.extend_from_slice(last.words().as_bytes())?;
            Ok(())
        }
        [next, rest @ ..] => {
            bytes.extend_from_slice(", ".as_bytes())?;
            bytes.extend_from_slice(next.words().as_bytes())?;
            add_further(bytes, rest)?;
            Ok(())
        }
    }
}
