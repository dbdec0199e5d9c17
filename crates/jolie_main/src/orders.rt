//! A load that the program makes itself.

ghost use Rattle.std.specs.Prelude.{◌≡◌, ◌≤◌, IfOk};
ghost use Rattle.jolie_main.specs.Headline.{Loads, SaysAt};

use crate::say::{refuse, say};
use check_verdicts::program_in;
use load_maker::{make, run_load, summary};
use main_commands::status::OUTPUT_FAILED;
use outside_traits::Sink;
use run_theorem::Ended;
use session_term_turns::Seated;
use std::alloc::{AllocError, Global};

/// Runs a load of so many lines in memory, and says how its orders went.
pub fn load<K: Sink>(alloc: Global, lines: u32, output: &mut K) -> Result<Ended, AllocError>
    requires few { lines ≤ 600 }
    ensures { IfOk result (λ ended. Loads lines ended (K.told output.old) (K.told output.new)) }
{
    let made = make(alloc, lines)?;
    let text = made.0.as_str().as_bytes();
    let program = match program_in(alloc, text)? {
        Ok(program) => program,
        Err(refusal) => return refuse(alloc, &refusal, output),
    };
    let ended = run_load::<Seated>(alloc, program, text, made.1.as_str().as_bytes())?;
    let line = summary(alloc, lines, ended.report.history.entries.as_slice())?;
    Ok(say_summary(line.as_str().as_bytes(), ended, output))
}

/// Writes the line of a load: the status is that of its run, or 5 where the output failed.
fn say_summary<K: Sink>(line: &[u8], ended: Ended, output: &mut K) -> Ended
    ensures says { SaysAt ended.status line.now result.status (K.told output.old) (K.told output.new) }
    ensures report { result.report ≡ ended.report }
{
    let Ended { status, report } = ended;
    if say(line, output) {
        Ended { status, report }
    } else {
        Ended {
            status: OUTPUT_FAILED,
            report,
        }
    }
}
