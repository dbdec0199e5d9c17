//! What is wrong with a text, in words.

ghost use Rattle.std.specs.Prelude.{◌≡◌, IfOk};
ghost use Rattle.explain_text.specs.Explained.{unreadable_line};
ghost use Rattle.jolie_main.specs.Headline.{Explains, IsEmptyRecord, TellsOfFile};
ghost use Rattle.jolie_main.specs.Outside.{IsWritten};

use crate::say::{say, tell, without_record};
use explain_text::{explained, noted, unreadable};
use main_commands::status::{FILE_FAILED, REFUSED};
use main_commands::{Action, Command};
use outside_traits::Sink;
use run_theorem::Ended;
use std::alloc::{AllocError, Global};

/// Says `ok` of a text that is a program, with its notes, or explains why it is none.
pub fn explain_text<K: Sink>(
    alloc: Global,
    file: &str,
    text: &[u8],
    output: &mut K,
) -> Result<Ended, AllocError>
    ensures explains { IfOk result
        (λ ended. Explains file.now text.now ended.status (K.told output.old) (K.told output.new)) }
    ensures empty { IfOk result (λ ended. IsEmptyRecord ended.report) }
{
    let refusal = match noted(alloc, file, text)? {
        Ok(lines) => return Ok(tell(alloc, lines.as_slice(), output)),
        Err(refusal) => refusal,
    };
    let lines = explained(alloc, file, text, &refusal)?;
    say(lines.as_slice(), output);
    Ok(without_record(alloc, REFUSED))
}

/// Ends a command whose file can't be read: `explain` says so. The status is 2.
pub fn file_failed<K: Sink>(
    alloc: Global,
    command: &Command,
    output: &mut K,
) -> Result<Ended, AllocError>
    ensures status { IfOk result (λ ended. ended.status ≡ 2) }
    ensures told { IfOk result (λ ended. TellsOfFile command.now (K.told output.old) (K.told output.new)) }
    ensures empty { IfOk result (λ ended. IsEmptyRecord ended.report) }
{
    match command.action {
        Action::Check => Ok(without_record(alloc, FILE_FAILED)),
        Action::Explain => explain_failed(alloc, command.file.as_str(), output),
        Action::Print => Ok(without_record(alloc, FILE_FAILED)),
        Action::Run => Ok(without_record(alloc, FILE_FAILED)),
        Action::Serve => Ok(without_record(alloc, FILE_FAILED)),
    }
}

/// Says that a file can't be read: the status is 2.
fn explain_failed<K: Sink>(alloc: Global, file: &str, output: &mut K) -> Result<Ended, AllocError>
    ensures status { IfOk result (λ ended. ended.status ≡ 2) }
    ensures written { IfOk result
        (λ ended. IsWritten (unreadable_line file.now) (K.told output.old) (K.told output.new)) }
    ensures empty { IfOk result (λ ended. IsEmptyRecord ended.report) }
{
    let line = unreadable(alloc, file)?;
    say(line.as_bytes(), output);
    Ok(without_record(alloc, FILE_FAILED))
}
