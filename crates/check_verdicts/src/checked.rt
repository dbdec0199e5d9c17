//! Which program a text is.

ghost use Rattle.std.specs.Prelude.{IfOk, MatchOption, MatchResult};
ghost use Rattle.behaviour_tree.specs.PartsView.{parts_of};
ghost use Rattle.check_verdicts.specs.Programs.{IsChecked, IsProgram, IsUncheckedBy};
ghost use Rattle.check_verdicts.specs.RefusalLines.{refusal_line};

use crate::refusal::Refusal;
use crate::verdict::{Verdict, verdict_of};
use behaviour_tree::Program;
use service_check::{CheckError, check};
use std::alloc::{AllocError, Global};

/// The program that a text is, or why it is none.
#[tactic(auto, using(crate::proofs::TextsAsPrograms::unread, crate::proofs::TextsAsPrograms::passed, crate::proofs::TextsAsPrograms::refused))]
pub fn program_in(alloc: Global, text: &[u8]) -> Result<Result<Program, Refusal>, AllocError>
    ensures { IfOk result
        (λ found. MatchResult found (λ program. IsChecked text.now (parts_of program))
        (λ refusal. IsUncheckedBy text.now (refusal_line refusal))) }
{
    let file = match verdict_of(alloc, text)? {
        Verdict::File(file) => file,
        Verdict::Refused(refusal) => return Ok(Err(refusal)),
    };
    match check(alloc, &file) {
        Ok(program) => Ok(Ok(program)),
        Err(CheckError::Refused(name, at)) => Ok(Err(Refusal::by_check(name, at))),
        Err(CheckError::Memory(cause)) => Err(cause),
    }
}

/// Why a text is no program, where it is none.
#[tactic(auto, using(crate::proofs::TextsAsPrograms::is_program))]
pub fn refusal_in(alloc: Global, text: &[u8]) -> Result<Option<Refusal>, AllocError>
    ensures { IfOk result
        (λ found. MatchOption found (IsProgram text.now) (λ refusal. IsUncheckedBy text.now (refusal_line refusal))) }
{
    match program_in(alloc, text)? {
        Ok(_) => Ok(None),
        Err(refusal) => Ok(Some(refusal)),
    }
}
