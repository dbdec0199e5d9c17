//! What goes out, apart from the answers of services.

ghost use Rattle.std.specs.Prelude.{◌≡◌, IfOk};
ghost use Rattle.jolie_main.specs.Headline.{Says, IsEmptyRecord};
ghost use Rattle.jolie_main.specs.Outside.{IsSaid, IsWritten};
ghost use Rattle.check_verdicts.specs.RefusalLines.{refusal_line};

use check_verdicts::Refusal;
use jolie_trees::Bytes;
use main_commands::status::{DONE, OUTPUT_FAILED, REFUSED, USAGE_ERROR};
use office_core::History;
use outside_traits::{Failed, Sink};
use run_record::Record;
use run_theorem::Ended;
use sqlite_items::Items;
use std::alloc::{AllocError, Global};

/// Writes a text. It says whether the output took all of it.
pub fn say<K: Sink>(text: &[u8], output: &mut K) -> bool
    ensures { IsSaid result text.now (K.told output.old) (K.told output.new) }
{
    let mut done = 0;
    while done < text.len() {
        match output.write(&text[done..]) {
            Ok(count) => done += count,
            Err(Failed) => return false,
        }
    }
    true
}

/// Writes the text that was asked for: the status is 0, or 5 where the output failed.
pub fn tell<K: Sink>(alloc: Global, text: &[u8], output: &mut K) -> Ended
    ensures says { Says text.now result.status (K.told output.old) (K.told output.new) }
    ensures empty { IsEmptyRecord result.report }
{
    if say(text, output) {
        without_record(alloc, DONE)
    } else {
        without_record(alloc, OUTPUT_FAILED)
    }
}

/// Writes the line of a refusal: the status is 3.
pub fn refuse<K: Sink>(
    alloc: Global,
    refusal: &Refusal,
    output: &mut K,
) -> Result<Ended, AllocError>
    ensures status { IfOk result (λ ended. ended.status ≡ 3) }
    ensures written { IfOk result
        (λ ended. IsWritten (refusal_line refusal.now) (K.told output.old) (K.told output.new)) }
    ensures empty { IfOk result (λ ended. IsEmptyRecord ended.report) }
{
    let line = refusal.line(alloc)?;
    say(line.as_bytes(), output);
    Ok(without_record(alloc, REFUSED))
}

/// Writes a usage error: the status is 1, whether or not the standard error takes it.
pub fn show_usage_error<N: Sink>(alloc: Global, text: &[u8], notes: &mut N) -> Ended
    ensures status { result.status ≡ 1 }
    ensures written { IsWritten text.now (N.told notes.old) (N.told notes.new) }
    ensures empty { IsEmptyRecord result.report }
{
    say(text, notes);
    without_record(alloc, USAGE_ERROR)
}

/// The end of a call that ran no program.
pub fn without_record(alloc: Global, status: u8) -> Ended
    ensures status { result.status ≡ status }
    ensures empty { IsEmptyRecord result.report }
{
    let report = Record {
        program: Bytes::new(alloc),
        history: History {
            entries: Vec::new(alloc),
        },
        sessions: Items::new(alloc),
        traffic: Items::new(alloc),
    };
    Ended { status, report }
}
