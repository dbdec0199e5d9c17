//! The commands that show what a text has.

ghost use Rattle.std.specs.Prelude.{IfOk};
ghost use Rattle.jolie_main.specs.Headline.{Checks, Prints, IsEmptyRecord};

use crate::say::{refuse, tell};
use check_verdicts::{Verdict, program_in, verdict_of};
use jolie_ast::print;
use outside_traits::Sink;
use run_theorem::Ended;
use std::alloc::{AllocError, Global};

/// Says `ok` of a text that is a program.
pub fn check_text<K: Sink>(alloc: Global, text: &[u8], output: &mut K) -> Result<Ended, AllocError>
    ensures shows { IfOk result (λ ended. Checks text.now ended.status (K.told output.old) (K.told output.new)) }
    ensures empty { IfOk result (λ ended. IsEmptyRecord ended.report) }
{
    match program_in(alloc, text)? {
        Ok(_) => {}
        Err(refusal) => return refuse(alloc, &refusal, output),
    }
    Ok(tell(alloc, b"ok\n", output))
}

/// Prints the definitions of a text.
pub fn print_text<K: Sink>(alloc: Global, text: &[u8], output: &mut K) -> Result<Ended, AllocError>
    ensures shows { IfOk result (λ ended. Prints text.now ended.status (K.told output.old) (K.told output.new)) }
    ensures empty { IfOk result (λ ended. IsEmptyRecord ended.report) }
{
    let file = match verdict_of(alloc, text)? {
        Verdict::File(file) => file,
        Verdict::Refused(refusal) => return refuse(alloc, &refusal, output),
    };
    let printed = print(alloc, &file)?;
    Ok(tell(alloc, printed.as_str().as_bytes(), output))
}
