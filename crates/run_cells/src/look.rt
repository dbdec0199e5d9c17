//! Whether sessions could act.
ghost use Rattle.std.specs.Prelude.{◌≡◌, ◌<◌, ◌↔◌, true, IfOk, OnOk, length};
ghost use Rattle.behaviour_tree.specs.PartsView.{parts_of};
ghost use Rattle.office_core.specs.Limits.{run_of};
ghost use Rattle.session_turn.specs.Passes.{IsReady};
ghost use Rattle.office_plain.specs.View.{entries_of};
ghost use Rattle.run_record.specs.Quiet.{CanAct};
ghost use Rattle.session_turn.specs.Lives.{Kept, moment};
ghost use Rattle.run_cells.specs.RunStates.{AtWork, seat_at};
ghost use Rattle.run_cells.specs.View.{run_state, state};
ghost use Rattle.run_cells.specs.Rounds.{CouldAct, HasSpent};

use crate::cells::{Cell, Cells};
use office_plain::Office;
use session_turn::{PlainDesk, Player, Seating, Session, may_act};
use std::alloc::AllocError;

impl<S: Seating> Cells<'_, S> {
    /// Whether a session used its whole budget and could act all the same.
    pub fn is_spent(&mut self) -> Result<bool, AllocError>
        requires work { AtWork (run_state S.Session self.old) }
        ensures program { self.new.program ≡ self.old.program }
        ensures same { OnOk result (state S.Session self.new ≡ state S.Session self.old) }
        ensures exact { IfOk result (λ spent. (spent ≡ true) ↔ HasSpent (state S.Session self.old)) }
        ensures work { OnOk result (AtWork (run_state S.Session self.new)) }
    {
        let count = self.cells.len();
        for number in 0..count {
            let could = self.could_act(number)?;
            if could {
                return Ok(true);
            }
        }
        Ok(false)
    }

    /// Whether the session of this number used its whole budget and could act all the same.
    fn could_act(&mut self, number: usize) -> Result<bool, AllocError>
        requires work { AtWork (run_state S.Session self.old) }
        requires there { number < length self.old.cells.items }
        ensures program { self.new.program ≡ self.old.program }
        ensures same { OnOk result (state S.Session self.new ≡ state S.Session self.old) }
        ensures exact { IfOk result (λ could. (could ≡ true) ↔ CouldAct (state S.Session self.old) number) }
        ensures work { OnOk result (AtWork (run_state S.Session self.new)) }
    {
        let cell = &self.cells[number];
        let count = cell.events.len();
        if count < self.budget as usize {
            return Ok(false);
        }
        let player = Player {
            program: &self.program,
            number: number as u32,
        };
        look_at(cell, &mut self.office, player)
    }
}

/// Whether the session of a cell may act at the desk of its office.
fn look_at<S: Session>(
    cell: &Cell<S>,
    office: &mut Office,
    player: Player<'_>,
) -> Result<bool, AllocError>
    requires ready { IsReady (parts_of player.program.now) office.old }
    requires kept { Kept (seat_at (run_of (parts_of player.program.now)) player.number) cell.now.events
        (moment (S.service_of cell.now.session) (S.config_of cell.now.session) (entries_of office.old)) }
    ensures ready { OnOk result (IsReady (parts_of player.entry.program.now) office.new) }
    ensures same { OnOk result (entries_of office.new ≡ entries_of office.old) }
    ensures exact { IfOk result
        (λ may. (may ≡ true) ↔ CanAct (run_of (parts_of player.entry.program.now)) (entries_of office.old)
        player.entry.number cell.now.events) }
{
    let desk = PlainDesk {
        program: player.program,
    };
    may_act(&desk, office, player, &cell.session)
}
