ghost use Rattle.std.specs.Prelude.{◌≡◌, ◌↔◌, ◌≤◌, ◌++◌, ◌∷◌, ℕ, true, false, List, [], IfOk, IfSome, OnOk, OnErr, MatchOption, length};
ghost use Rattle.behaviour_tree.specs.PartsView.{parts_of};
ghost use Rattle.behaviour_tree.specs.declared.words.Event.{Event as Row};
ghost use Rattle.office_core.specs.Limits.{run_of};
ghost use Rattle.session_turn.specs.Lives.{Kept, moment};
ghost use Rattle.session_turn.specs.Seen.{seat};
ghost use Rattle.session_turn.specs.Turns.{AreEnabled, FirstDone, NoneAllowed, from_pick};

use crate::attempt::attempt;
use crate::desk::Desk;
use crate::session::Session;
use behaviour_tree::{Event, Events, Program};
use std::alloc::AllocError;

/// A session of a run of a program, by its number.
#[derive(Clone, Copy)]
pub struct Player<'a> {
    pub program: &'a Program,
    pub number: u32,
}

/// What a turn did.
#[derive(Clone, Copy, Debug, PartialEq, Eq)]
pub enum Turn {
    Did(Event),
    Idle,
    Ended,
    Spent,
}

/// Does the first event from a strand on that the office allows, unless the session has ended or used its budget.
pub fn turn_of<D: Desk, S: Session>(
    desk: &D,
    pass: &mut D::Pass,
    player: Player<'_>,
    session: &mut S,
    events: &mut Events,
    budget: u32,
    pick: u32,
) -> Result<Turn, AllocError>
    requires pass { D.is_pass desk.now pass.old player.number }
    requires run { (D.office desk.now).setting ≡ run_of (parts_of player.program.now) }
    requires kept { Kept (seat (D.office desk.now) player.number) events.old
        (moment (S.service_of session.old) (S.config_of session.old) (D.seen pass.old)) }
    ensures pass { OnOk result (D.is_pass desk.now pass.new player.entry.number) }
    ensures did { (event : Row) → result ≡ Ok (Turn.Did event) → (strands : List ℕ)
        × AreEnabled (seat (D.office desk.now) player.entry.number)
        (moment (S.service_of session.old) (S.config_of session.old) (D.seen pass.old)) strands
        × FirstDone (seat (D.office desk.now) player.entry.number) (from_pick strands pick)
        (moment (S.service_of session.old) (S.config_of session.old) (D.seen pass.old))
        (moment (S.service_of session.new) (S.config_of session.new) (D.seen pass.new)) event
        × (events.new ≡ events.old ++ event ∷ []) }
    ensures idle { result ≡ Ok Turn.Idle → (strands : List ℕ)
        × AreEnabled (seat (D.office desk.now) player.entry.number)
        (moment (S.service_of session.old) (S.config_of session.old) (D.seen pass.old)) strands
        × NoneAllowed (seat (D.office desk.now) player.entry.number) (from_pick strands pick)
        (moment (S.service_of session.old) (S.config_of session.old) (D.seen pass.old))
        (moment (S.service_of session.new) (S.config_of session.new) (D.seen pass.new))
        × (events.new ≡ events.old) }
    ensures ended { IfSome (S.config_of session.old) (λ c. (result ≡ Ok Turn.Ended) ↔ (c.ended ≡ true)) }
    ensures spent { IfSome (S.config_of session.old)
        (λ c. (result ≡ Ok Turn.Spent) ↔ ((budget ≤ length events.old) × (c.ended ≡ false))) }
    ensures at_end { result ≡ Ok Turn.Ended
        → (moment (S.service_of session.new) (S.config_of session.new) (D.seen pass.new)
        ≡ moment (S.service_of session.old) (S.config_of session.old) (D.seen pass.old)) × (events.new ≡ events.old) }
    ensures at_rest { result ≡ Ok Turn.Spent
        → (moment (S.service_of session.new) (S.config_of session.new) (D.seen pass.new)
        ≡ moment (S.service_of session.old) (S.config_of session.old) (D.seen pass.old)) × (events.new ≡ events.old) }
    ensures kept { OnOk result (Kept (seat (D.office desk.now) player.entry.number) events.new
        (moment (S.service_of session.new) (S.config_of session.new) (D.seen pass.new))) }
    ensures service { S.service_of session.new ≡ S.service_of session.old }
    ensures err { OnErr result (events.new ≡ events.old) }
{
    if session.ended() {
        return Ok(Turn::Ended);
    }
    if events.len() >= budget as usize {
        return Ok(Turn::Spent);
    }
    let strands = session.enabled(player.program)?;
    match first_allowed(desk, pass, player, session, strands.as_slice(), pick)? {
        Some(event) => {
            events.push(event)?;
            Ok(Turn::Did(event))
        }
        None => Ok(Turn::Idle),
    }
}

/// Does the event of the first strand that the office allows, from the strand at position `pick` on.
fn first_allowed<D: Desk, S: Session>(
    desk: &D,
    pass: &mut D::Pass,
    player: Player<'_>,
    session: &mut S,
    strands: &[u64],
    pick: u32,
) -> Result<Option<Event>, AllocError>
    requires pass { D.is_pass desk.now pass.old player.number }
    requires run { (D.office desk.now).setting ≡ run_of (parts_of player.program.now) }
    requires kept { ∥ ((es : List Row) × Kept (seat (D.office desk.now) player.number) es
        (moment (S.service_of session.old) (S.config_of session.old) (D.seen pass.old))) ∥₁ }
    requires enabled { AreEnabled (seat (D.office desk.now) player.number)
        (moment (S.service_of session.old) (S.config_of session.old) (D.seen pass.old)) strands.now }
    ensures pass { OnOk result (D.is_pass desk.now pass.new player.entry.number) }
    ensures first { IfOk result (λ o. MatchOption o
        (NoneAllowed (seat (D.office desk.now) player.entry.number) (from_pick strands.now pick)
        (moment (S.service_of session.old) (S.config_of session.old) (D.seen pass.old))
        (moment (S.service_of session.new) (S.config_of session.new) (D.seen pass.new)))
        (FirstDone (seat (D.office desk.now) player.entry.number) (from_pick strands.now pick)
        (moment (S.service_of session.old) (S.config_of session.old) (D.seen pass.old))
        (moment (S.service_of session.new) (S.config_of session.new) (D.seen pass.new)))) }
    ensures service { S.service_of session.new ≡ S.service_of session.old }
{
    let count = strands.len();
    for k in 0..count {
        let strand = strands[(pick as usize + k) % count];
        match attempt(desk, pass, player, session, strand)? {
            Some(event) => return Ok(Some(event)),
            None => {}
        }
    }
    Ok(None)
}
