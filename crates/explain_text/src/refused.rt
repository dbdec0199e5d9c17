//! A refusal, explained.

ghost use Rattle.std.specs.Prelude.{◌≡◌, IfOk, string_bytes};
ghost use Rattle.explain_text.specs.Explained as spec;

use crate::advice::{Advice, advice_for};
use crate::lines::{add_line, add_pointed};
use crate::listed::listed;
use crate::words::{rule, words};
use check_verdicts::{Cause, Refusal};
use explain_hints::{Hint, hints_at};
use std::alloc::{AllocError, Global};

/// What a person reads of the refusal of a file's text.
#[tactic(auto, using(crate::proofs::Pieces::is_explained))]
pub fn explained(
    alloc: Global,
    file: &str,
    text: &[u8],
    refusal: &Refusal,
) -> Result<Vec<u8>, AllocError>
    ensures { IfOk result (λ bytes. spec.IsExplained file.now text.now refusal.now bytes.items) }
{
    let at = refusal.at as usize;
    let hints = hints_of(alloc, text, refusal.cause, at)?;
    let advice = advice_for(alloc, text, refusal.cause, at, hints.as_slice())?;
    let listed = listed(alloc, hints.as_slice())?;
    let words = tagged_words(alloc, refusal)?;
    let mut bytes = Vec::new(alloc);
    add_pointed(alloc, file, text, at, words.as_str(), &mut bytes)?;
    add_line(&mut bytes, "expected: ", listed.as_slice())?;
    add_line(
        &mut bytes,
        "rule: ",
        rule(refusal.cause, text, at).as_bytes(),
    )?;
    add_line(&mut bytes, "advice: ", advised_words(advice).as_bytes())?;
    Ok(bytes)
}

/// What is wrong, and what documents call the refusal by.
fn tagged_words(alloc: Global, refusal: &Refusal) -> Result<String, AllocError>
    ensures { IfOk result (λ tagged. string_bytes tagged ≡ spec.tagged_words refusal.now) }
{
    let words = words(refusal.cause);
    let stage = refusal.stage.as_str();
    let name = refusal.cause.as_str();
    format!(in alloc; "{words} [{stage} {name}]")
}

/// Advice in words, and nothing where there is none.
fn advised_words(advice: Option<Advice>) -> &'static str
    ensures { result.now ≡ spec.advised_words advice }
{
    match advice {
        Some(advice) => advice.words(),
        None => "",
    }
}

/// What may stand at the place of a token that may not: of another refusal its words say what is wrong.
fn hints_of(alloc: Global, text: &[u8], cause: Cause, at: usize) -> Result<Vec<Hint>, AllocError>
    ensures { IfOk result (λ hints. spec.AreHintsOf text.now cause at hints.items) }
{
    match cause {
        Cause::Syntax => {
            let hints = hints_at(alloc, text, at)?;
            Ok(hints)
        }
        Cause::TooLong => Ok(Vec::new(alloc)),
        Cause::BadByte => Ok(Vec::new(alloc)),
        Cause::OpenString => Ok(Vec::new(alloc)),
        Cause::OpenComment => Ok(Vec::new(alloc)),
        Cause::BadNumber => Ok(Vec::new(alloc)),
        Cause::TooDeep => Ok(Vec::new(alloc)),
        Cause::Check(_) => Ok(Vec::new(alloc)),
    }
}
