//! What is left of a run.
ghost use Rattle.std.specs.Prelude.{◌≡◌, map, IfOk};
ghost use Rattle.run_cells.specs.RunStates.{events_of};
ghost use Rattle.run_cells.specs.View.{run_state, state};

use crate::cells::{Cell, Cells};
use behaviour_tree::Events;
use office_core::History;
use session_turn::Seating;
use sqlite_items::Items;
use std::alloc::{AllocError, Global};

impl<S: Seating> Cells<'_, S> {
    /// The history, and the events of each session by its number.
    pub fn into_parts(self) -> Result<(History, Items<Events>), AllocError>
        ensures history { IfOk result (λ parts. parts.0.entries.items ≡ (state S.Session self.entry).history) }
        ensures sessions { IfOk result (λ parts. parts.1 ≡ events_of (run_state S.Session self.entry).stands) }
    {
        let sessions = events_in(self.alloc, self.cells)?;
        Ok((self.office.into_history(), sessions))
    }
}

/// The events of each session.
fn events_in<S: Seating>(alloc: Global, cells: Vec<Cell<S>>) -> Result<Items<Events>, AllocError>
    ensures { IfOk result (λ sessions. sessions ≡ map (λ d. d.events) cells.items) }
{
    let mut sessions = Items::new(alloc);
    for cell in cells {
        sessions.push(cell.events)?;
    }
    Ok(sessions)
}
