//! A session at its desk: its turns, and whether it may act.

ghost use Rattle.std.specs.Prelude.{◌≡◌, ◌↔◌, [], ◌∷◌, true, IfOk, OnOk};
ghost use Rattle.behaviour_tree.specs.PartsView.{parts_of};
ghost use Rattle.office_core.specs.Limits.{run_of};
ghost use Rattle.office_plain.specs.View.{entries_of};
ghost use Rattle.run_cells.specs.Turns.{IsTurn};
ghost use Rattle.run_record.specs.Quiet.{CanAct};
ghost use Rattle.test_seats.specs.Seats.{IsSeated, state_in, state_with};

use behaviour_tree::{Events, Program};
use office_core::History;
use office_plain::Office;
use session_term_turns::Seated;
use session_turn::{PlainDesk, Player, Turn, may_act, turn_of};
use std::alloc::AllocError;

/// Session 0 of a run, with its events and its office. It has at most as many events as the budget.
#[derive(Drop)]
pub struct Seat<'p> {
    pub(crate) program: &'p Program,
    pub(crate) office: Office,
    pub(crate) session: Seated,
    pub(crate) events: Events,
    pub(crate) budget: u32,
}

impl Seat<'_> {
    /// Gives the session a turn.
    pub fn turn(&mut self, pick: u32) -> Result<Turn, AllocError>
        requires { IsSeated self.old }
        ensures turn { IfOk result (IsTurn 0 (state_with self.old pick) (state_in self.new)) }
        ensures seated { OnOk result (IsSeated self.new) }
    {
        let desk = PlainDesk {
            program: self.program,
        };
        let player = Player {
            program: self.program,
            number: 0,
        };
        turn_of(
            &desk,
            &mut self.office,
            player,
            &mut self.session,
            &mut self.events,
            self.budget,
            pick,
        )
    }

    /// Whether the session may act.
    pub fn may_act(&mut self) -> Result<bool, AllocError>
        requires { IsSeated self.old }
        ensures same { OnOk result (state_in self.new ≡ state_in self.old) }
        ensures exact { IfOk result
            (λ may. (may ≡ true) ↔ CanAct (run_of (parts_of self.old.program.now)) (entries_of self.old.office) 0
            self.old.events) }
        ensures seated { OnOk result (IsSeated self.new) }
    {
        let desk = PlainDesk {
            program: self.program,
        };
        let player = Player {
            program: self.program,
            number: 0,
        };
        may_act(&desk, &mut self.office, player, &self.session)
    }

    /// The events of the session.
    pub fn events(&self) -> &Events
        ensures { result.now ≡ self.now.events }
    {
        &self.events
    }

    /// The office.
    pub fn office(&self) -> &Office
        ensures { result.now ≡ self.now.office }
    {
        &self.office
    }

    /// The calls of the office in the end.
    pub fn into_history(self) -> History
        ensures { result.entries.items ≡ entries_of self.entry.office }
    {
        self.office.into_history()
    }
}
