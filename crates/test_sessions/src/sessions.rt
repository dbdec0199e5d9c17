//! Sessions of programs that are played line by line, with what each of them answers.
//!
//! A row has a program, the number of the service that its session is of, and lines, each with its answer after it:
//! `step 0 => 0 Local 0 0 0`. How lines are written stands at `played`, what is handed in at `read_gift`, what an event
//! asks at `need_words`, and values at `read_value`.
ghost use Rattle.std.specs.Prelude.{◌<◌, length, IsTrue};
ghost use Rattle.behaviour_tree.specs.PartsView.{parts_of};

mod asked;
mod events;
mod gift;
mod need;
mod play;
mod values;

use crate::sessions::play::played;
use behaviour_tree::Program;
use std::alloc::Global;
use term_session::TermSession;
use test_programs::with_program;
use test_rows::Row;

/// What the session of a row answers to the lines.
pub fn told(alloc: Global, row: &Row<'_>, lines: &str) -> anyhow::Result<String> {
    let text = row.bytes(alloc, "program")?;
    let service = row.number(alloc, "service")?;
    with_program(alloc, text.as_slice(), |program| {
        told_of_service(alloc, program, service, lines)
    })
}

/// What a session of a service answers to the lines.
fn told_of_service(
    alloc: Global,
    program: &Program,
    service: u32,
    lines: &str,
) -> anyhow::Result<String> {
    if !has_service(program, service) {
        return Ok(String::from_str(alloc, "no such service")?);
    }
    let mut session = TermSession::start(alloc, program, service)?;
    Ok(played(alloc, &mut session, program, lines)?)
}

/// Whether a program has a service of this number.
#[tactic(auto, using(crate::proofs::Services::as_many_services))]
fn has_service(program: &Program, service: u32) -> bool
    ensures { IsTrue result → service < length (parts_of program.now).services }
{
    (service as usize) < program.parts().services.len()
}
