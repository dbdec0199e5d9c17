//! What is said of a text.

ghost use Rattle.std.specs.Prelude.{IfOk};
ghost use Rattle.check_verdicts.specs.RefusalLines.{IsVerdict};

use crate::refusal::Refusal;
use jolie_ast::Ast;
use jolie_parse::parse;
use jolie_tokens::lex;
use std::alloc::{AllocError, Global};

/// The definitions that a text has, or why it has none.
#[derive(Drop)]
pub enum Verdict {
    File(Ast),
    Refused(Refusal),
}

/// What is said of a text.
#[tactic(auto, using(crate::proofs::ReadOrRefused::fits, crate::proofs::ReadOrRefused::accepted, crate::proofs::ReadOrRefused::refused_by_lex, crate::proofs::ReadOrRefused::refused_by_parse))]
pub fn verdict_of(alloc: Global, text: &[u8]) -> Result<Verdict, AllocError>
    ensures { IfOk result (λ verdict. IsVerdict text.now verdict) }
{
    let tokens = match lex(alloc, text) {
        Ok(tokens) => tokens,
        Err(error) => return Ok(Verdict::Refused(Refusal::by_lex(error)?)),
    };
    match parse(alloc, text, &tokens) {
        Ok(file) => Ok(Verdict::File(file)),
        Err(error) => Ok(Verdict::Refused(Refusal::by_parse(error)?)),
    }
}
