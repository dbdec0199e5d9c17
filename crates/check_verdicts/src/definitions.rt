//! Which definitions a program has.

ghost use Rattle.std.specs.Prelude.{IfOk, MatchResult};
ghost use Rattle.check_verdicts.specs.Programs.{IsFileOf, IsUncheckedBy};
ghost use Rattle.check_verdicts.specs.RefusalLines.{refusal_line};

use crate::refusal::Refusal;
use crate::verdict::{Verdict, verdict_of};
use jolie_ast::Ast;
use service_check::{CheckError, check};
use std::alloc::{AllocError, Global};

/// The definitions of a text that is a program, or why it is none.
#[tactic(auto, using(crate::proofs::TextsAsPrograms::unread, crate::proofs::TextsAsPrograms::is_file_of, crate::proofs::TextsAsPrograms::refused))]
pub fn definitions_in(alloc: Global, text: &[u8]) -> Result<Result<Ast, Refusal>, AllocError>
    ensures { IfOk result
        (λ found. MatchResult found (λ file. IsFileOf text.now file)
        (λ refusal. IsUncheckedBy text.now (refusal_line refusal))) }
{
    let file = match verdict_of(alloc, text)? {
        Verdict::File(file) => file,
        Verdict::Refused(refusal) => return Ok(Err(refusal)),
    };
    match check(alloc, &file) {
        Ok(_) => Ok(Ok(file)),
        Err(CheckError::Refused(name, at)) => Ok(Err(Refusal::by_check(name, at))),
        Err(CheckError::Memory(cause)) => Err(cause),
    }
}
