ghost use Rattle.std.specs.Prelude.{◌≡◌, ◌<◌, length, IfOk};
ghost use Rattle.behaviour_tree.specs.PartsView.{parts_of};
ghost use Rattle.outside_doors.specs.Returns.{DoorsTold};
ghost use Rattle.run_theorem.specs.Theorem.{IsLined};
ghost use Rattle.run_lines.specs.Steps as steps;

use crate::front::LineFront;
use crate::kept::Kept;
use crate::status::status_of;
use behaviour_tree::Program;
use outside_links::Link;
use outside_traits::{Sink, Source};
use run_alone::run_over;
use run_record::{Record, Traffic};
use run_theorem::Ended;
use session_turn::Seating;
use sqlite_items::Items;
use std::alloc::{AllocError, Global};

/// Runs a program, whose text this is, over the lines of a source, and writes the answers to an output and the notes to
/// a sink of their own; calls to services elsewhere go by the link. A session has at most as many events as the budget,
/// and each turn takes the next pick, or 0 after the last.
pub fn run_lines<S: Seating, I: Source, K: Sink, N: Sink, L: Link>(
    alloc: Global,
    program: Program,
    text: &[u8],
    input: &mut I,
    output: &mut K,
    notes: &mut N,
    link: &mut L,
    budget: u32,
    picks: &[u32],
) -> Result<Ended, AllocError>
    requires some { 0 < length (parts_of program).services }
    ensures { (doors : DoorsTold) → IfOk result (IsLined
        (record { parts = parts_of program; text = text.now; budget = budget; picks = picks.now })
        (record {
          before = record {
            source = I.told input.old;
            output = K.told output.old;
            notes = N.told notes.old;
            doors = doors;
            link = L.told link.old;
          };
          now = record {
            source = I.told input.new;
            output = K.told output.new;
            notes = N.told notes.new;
            doors = doors;
            link = L.told link.new;
          };
        })) }
{
    let mut kept = Kept::new(alloc);
    let mut front = LineFront::new(alloc, input, output, notes, &mut kept);
    let finished = run_over::<S, LineFront<'_, I, K, N>, L>(
        alloc, program, text, &mut front, link, budget, picks,
    )?;
    let status = status_of(kept.failed(), kept.halted(), finished.spent);
    let report = with_traffic(alloc, finished.report, kept.into_traffic())?;
    Ok(Ended { status, report })
}

/// The record of a run with the bytes of its lines as its traffic.
fn with_traffic(alloc: Global, report: Record, traffic: Traffic) -> Result<Record, AllocError>
    ensures { IfOk result (λ made. made ≡ steps.with_traffic report traffic) }
{
    let mut all = Items::new(alloc);
    all.push(traffic)?;
    let Record {
        program,
        history,
        sessions,
        traffic: _,
    } = report;
    Ok(Record {
        program,
        history,
        sessions,
        traffic: all,
    })
}
