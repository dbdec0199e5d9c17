ghost use Rattle.std.specs.Prelude.{◌≡◌, ◌<◌, [], length, IfOk};
ghost use Rattle.behaviour_tree.specs.PartsView.{parts_of};
ghost use Rattle.outside_traits.specs.Told.{SinkTold, SourceTold};
ghost use Rattle.run_theorem.specs.Theorem.{IsDoored};
ghost use Rattle.run_doors.specs.Steps as steps;

use crate::giving_back::give_back;
use crate::opening::{Opening, open_doors};
use crate::status::status_of;
use behaviour_tree::Program;
use outside_doors::Doors;
use outside_links::Link;
use outside_traits::Sink;
use run_alone::run_over;
use run_door_front::{DoorFront, Kept};
use run_record::{Record, Traffic};
use run_theorem::Ended;
use session_turn::Seating;
use sqlite_items::Items;
use std::alloc::{AllocError, Global};

/// Runs a program, whose text this is, over the connections that come at its doors, and writes the notes to a sink of
/// their own; calls to services elsewhere go by the link. Doors are opened where the program has input ports of
/// sockets. So many connections are accepted at most, and a session has at most as many events as the budget. After
/// want of memory the doors and the connections are closed and do not come back.
pub fn run_doors<S: Seating, D: Doors, N: Sink, L: Link>(
    alloc: Global,
    program: Program,
    text: &[u8],
    doors: &mut D,
    notes: &mut N,
    link: &mut L,
    budget: u32,
    connections: u32,
) -> Result<Ended, AllocError>
    requires some { 0 < length (parts_of program).services }
    ensures { (source : SourceTold) (output : SinkTold) → IfOk result (IsDoored
        (λ line. (wire : D.D.W) × (line ≡ (D.D.W.told wire).wire))
        connections (record { parts = parts_of program; text = text.now; budget = budget; picks = [] })
        (record {
          before = record {
            source = source;
            output = output;
            notes = N.told notes.old;
            doors = D.told doors.old;
            link = L.told link.old;
          };
          now = record {
            source = source;
            output = output;
            notes = N.told notes.new;
            doors = D.told doors.new;
            link = L.told link.new;
          };
        })) }
{
    let Opening { ports, failed } = open_doors(alloc, &program, doors)?;
    let mut kept = Kept::new(alloc, ports, connections);
    let mut front = DoorFront::new(alloc, &mut kept, notes);
    let finished = run_over::<S, DoorFront<'_, D::D, N>, L>(
        alloc,
        program,
        text,
        &mut front,
        link,
        budget,
        &[],
    )?;
    if kept.spent() {
        return Err(AllocError);
    }
    let halted = kept.halted();
    let back = give_back(alloc, doors, kept)?;
    let status = status_of(halted, failed, back.failed, finished.spent);
    let report = with_traffic(finished.report, back.traffic);
    Ok(Ended { status, report })
}

/// The record of a run with the bytes of its connections as its traffic.
fn with_traffic(report: Record, traffic: Items<Traffic>) -> Record
    ensures { result ≡ steps.with_traffic report traffic }
{
    let Record {
        program,
        history,
        sessions,
        traffic: _,
    } = report;
    Record {
        program,
        history,
        sessions,
        traffic,
    }
}
