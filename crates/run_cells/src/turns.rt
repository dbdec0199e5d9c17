//! Turns of one session.
ghost use Rattle.std.specs.Prelude.{◌≡◌, ◌<◌, IfOk, OnOk, length, slice_get, unwrap_or, drop};
ghost use Rattle.behaviour_tree.specs.PartsView.{parts_of};
ghost use Rattle.office_core.specs.Limits.{run_of};
ghost use Rattle.session_turn.specs.Passes.{IsReady};
ghost use Rattle.office_plain.specs.View.{entries_of};
ghost use Rattle.session_turn.specs.Lives.{Kept, moment};
ghost use Rattle.run_cells.specs.Awake.{IsOn};
ghost use Rattle.run_cells.specs.RunStates.{AtWork, seat_at, stand_by};
ghost use Rattle.run_cells.specs.View.{run_state, state};
ghost use Rattle.run_cells.specs.Turns.{IsTurn, Turned, TurnsOf, is_did as did, position};

use crate::cells::{Cell, Cells};
use office_plain::Office;
use session_turn::{PlainDesk, Player, Seating, Session, Turn, turn_of};
use std::alloc::AllocError;

impl<S: Seating> Cells<'_, S> {
    /// Gives a session turns until one does nothing; it says whether one did something.
    pub(crate) fn turns_of(&mut self, number: usize) -> Result<bool, AllocError>
        requires work { AtWork (run_state S.Session self.old) }
        requires there { number < length self.old.cells.items }
        requires awake { IsOn self.old.news.awake number }
        ensures program { self.new.program ≡ self.old.program }
        ensures news { self.new.news ≡ self.old.news }
        ensures turns { IfOk result (TurnsOf number (state S.Session self.old) (state S.Session self.new)) }
        ensures work { OnOk result (AtWork (run_state S.Session self.new)) }
    {
        let mut moved = false;
        'turns: loop {
            let took = self.turn(number)?;
            let did = is_did(took);
            if !did {
                return Ok(moved);
            }
            moved = true;
        }
    }

    /// Gives a session one turn, for the next pick.
    fn turn(&mut self, number: usize) -> Result<Turn, AllocError>
        requires work { AtWork (run_state S.Session self.old) }
        requires there { number < length self.old.cells.items }
        requires awake { IsOn self.old.news.awake number }
        ensures program { self.new.program ≡ self.old.program }
        ensures news { self.new.news ≡ self.old.news }
        ensures turn { IfOk result (IsTurn number (state S.Session self.old) (state S.Session self.new)) }
        ensures work { OnOk result (AtWork (run_state S.Session self.new)) }
    {
        let pick = first_pick(self.picks);
        self.picks = picks_behind(self.picks, 1);
        let player = Player {
            program: &self.program,
            number: number as u32,
        };
        turn_at(
            &mut self.cells[number],
            &mut self.office,
            player,
            self.budget,
            pick,
        )
    }
}

/// Gives the session of a cell one turn at the desk of its office.
fn turn_at<S: Session>(
    cell: &mut Cell<S>,
    office: &mut Office,
    player: Player<'_>,
    budget: u32,
    pick: u32,
) -> Result<Turn, AllocError>
    requires ready { IsReady (parts_of player.program.now) office.old }
    requires kept { Kept (seat_at (run_of (parts_of player.program.now)) player.number) cell.old.events
        (moment (S.service_of cell.old.session) (S.config_of cell.old.session) (entries_of office.old)) }
    ensures ready { OnOk result (IsReady (parts_of player.entry.program.now) office.new) }
    ensures kept { OnOk result (Kept (seat_at (run_of (parts_of player.entry.program.now)) player.entry.number)
        cell.new.events (moment (S.service_of cell.new.session) (S.config_of cell.new.session)
        (entries_of office.new))) }
    ensures turned { IfOk result (Turned
        (record {
          setting = run_of (parts_of player.entry.program.now);
          budget = budget;
          session = player.entry.number;
          pick = pick;
        })
        (position (stand_by (S.service_of cell.old.session) (S.config_of cell.old.session) cell.old.events)
        (entries_of office.old))
        (position (stand_by (S.service_of cell.new.session) (S.config_of cell.new.session) cell.new.events)
        (entries_of office.new))) }
{
    let desk = PlainDesk {
        program: player.program,
    };
    turn_of(
        &desk,
        office,
        player,
        &mut cell.session,
        &mut cell.events,
        budget,
        pick,
    )
}

/// Whether a turn did something.
fn is_did(turn: Turn) -> bool
    ensures { result ≡ did turn }
{
    match turn {
        Turn::Did(_) => true,
        Turn::Idle => false,
        Turn::Ended => false,
        Turn::Spent => false,
    }
}

/// The next pick, 0 where none is left.
fn first_pick(picks: &[u32]) -> u32
    ensures { result ≡ unwrap_or (slice_get picks.now 0) 0 }
{
    match picks.first() {
        None => 0,
        Some(pick) => *pick,
    }
}

/// The picks after so many.
pub(crate) fn picks_behind<'a>(picks: &'a [u32], count: usize) -> &'a [u32]
    ensures { result.now ≡ drop count picks.now }
{
    let left = picks.len();
    if left < count {
        return &[];
    }
    &picks[count..]
}
