ghost use Rattle.std.specs.Prelude.{◌≡◌, true, List, IfOk, IfSome};
ghost use Rattle.behaviour_tree.specs.PartsView.{parts_of};
ghost use Rattle.behaviour_tree.specs.declared.words.Event.{Event as Row};
ghost use Rattle.session_calculus.specs.After.{HasEvent};
ghost use Rattle.office_core.specs.Limits.{run_of};
ghost use Rattle.session_turn.specs.Asking.{may_call as may};
ghost use Rattle.session_turn.specs.Attempts.{LookedAt};
ghost use Rattle.session_turn.specs.Lives.{Kept, moment};
ghost use Rattle.session_turn.specs.Seen.{Grew, seat};
ghost use Rattle.session_turn.specs.Looks.{LookedAtAll, MayAct, is_there as there};
ghost use Rattle.session_turn.specs.Turns.{AreEnabled};

use crate::attempt::need_of;
use crate::desk::Desk;
use crate::laws::sessions_may_ask;
use crate::session::Session;
use crate::turn::Player;
use behaviour_tree::Need;
use std::alloc::AllocError;

/// Whether an event of the session is allowed, as none is of one that has ended. It does none.
#[tactic(auto, using(crate::proofs::Growing::grew_not))]
pub fn may_act<D: Desk, S: Session>(
    desk: &D,
    pass: &mut D::Pass,
    player: Player<'_>,
    session: &S,
) -> Result<bool, AllocError>
    requires pass { D.is_pass desk.now pass.old player.number }
    requires run { (D.office desk.now).setting ≡ run_of (parts_of player.program.now) }
    requires kept { ∥ ((es : List Row) × Kept (seat (D.office desk.now) player.number) es
        (moment (S.service_of session.now) (S.config_of session.now) (D.seen pass.old))) ∥₁ }
    ensures pass { D.is_pass desk.now pass.new player.entry.number }
    ensures grew { Grew (seat (D.office desk.now) player.entry.number) (D.seen pass.old) (D.seen pass.new) }
    ensures exact { IfOk result (MayAct (seat (D.office desk.now) player.entry.number)
        (moment (S.service_of session.now) (S.config_of session.now) (D.seen pass.old))
        (moment (S.service_of session.now) (S.config_of session.now) (D.seen pass.new))) }
{
    if session.ended() {
        return Ok(false);
    }
    let strands = session.enabled(player.program)?;
    some_allowed(desk, pass, player, session, strands.as_slice())
}

/// Whether the event of one of the strands is allowed. The first that is ends the search.
#[tactic(auto, using(crate::proofs::Growing::grew_not, crate::proofs::Growing::grew_on, crate::proofs::Allowed::none_allowed))]
fn some_allowed<D: Desk, S: Session>(
    desk: &D,
    pass: &mut D::Pass,
    player: Player<'_>,
    session: &S,
    strands: &[u64],
) -> Result<bool, AllocError>
    requires pass { D.is_pass desk.now pass.old player.number }
    requires run { (D.office desk.now).setting ≡ run_of (parts_of player.program.now) }
    requires kept { ∥ ((es : List Row) × Kept (seat (D.office desk.now) player.number) es
        (moment (S.service_of session.now) (S.config_of session.now) (D.seen pass.old))) ∥₁ }
    requires enabled { AreEnabled (seat (D.office desk.now) player.number)
        (moment (S.service_of session.now) (S.config_of session.now) (D.seen pass.old)) strands.now }
    ensures pass { D.is_pass desk.now pass.new player.entry.number }
    ensures grew { Grew (seat (D.office desk.now) player.entry.number) (D.seen pass.old) (D.seen pass.new) }
    ensures exact { IfOk result (LookedAtAll (seat (D.office desk.now) player.entry.number) strands.now
        (moment (S.service_of session.now) (S.config_of session.now) (D.seen pass.old))
        (moment (S.service_of session.now) (S.config_of session.now) (D.seen pass.new))) }
{
    for k in 0..strands.len() {
        let allowed = is_allowed(desk, pass, player, session, strands[k])?;
        if allowed {
            return Ok(true);
        }
    }
    Ok(false)
}

/// Whether the event of a strand is allowed.
#[tactic(auto, using(crate::proofs::Growing::grew_not))]
fn is_allowed<D: Desk, S: Session>(
    desk: &D,
    pass: &mut D::Pass,
    player: Player<'_>,
    session: &S,
    strand: u64,
) -> Result<bool, AllocError>
    requires pass { D.is_pass desk.now pass.old player.number }
    requires run { (D.office desk.now).setting ≡ run_of (parts_of player.program.now) }
    requires kept { ∥ ((es : List Row) × Kept (seat (D.office desk.now) player.number) es
        (moment (S.service_of session.now) (S.config_of session.now) (D.seen pass.old))) ∥₁ }
    requires enabled { IfSome (S.config_of session.now)
        (λ c. HasEvent (D.office desk.now).setting.parts (S.service_of session.now) c strand) }
    ensures pass { D.is_pass desk.now pass.new player.entry.number }
    ensures grew { Grew (seat (D.office desk.now) player.entry.number) (D.seen pass.old) (D.seen pass.new) }
    ensures looked { IfOk result (LookedAt (seat (D.office desk.now) player.entry.number) strand
        (moment (S.service_of session.now) (S.config_of session.now) (D.seen pass.old))
        (moment (S.service_of session.now) (S.config_of session.now) (D.seen pass.new))) }
{
    let need = need_of(player.program, session, strand)?;
    sessions_may_ask();
    is_there(desk, pass, player.number, &need)
}

/// Whether what an event needs is there.
#[tactic(auto, using(crate::proofs::Growing::grew_not))]
fn is_there<D: Desk>(
    desk: &D,
    pass: &mut D::Pass,
    number: u32,
    need: &Need,
) -> Result<bool, AllocError>
    requires pass { D.is_pass desk.now pass.old number }
    requires may { may (seat (D.office desk.now) number) (D.seen pass.old) need.now ≡ true }
    ensures pass { D.is_pass desk.now pass.new number }
    ensures grew { Grew (seat (D.office desk.now) number) (D.seen pass.old) (D.seen pass.new) }
    ensures exact { IfOk result (λ b. b ≡ there (seat (D.office desk.now) number) (D.seen pass.new) need.now) }
{
    match need {
        Need::Take { ops } => desk.has_mail(pass, number, ops.as_slice()),
        Need::Answer { call } => desk.has_answer(pass, number, *call),
        _ => Ok(true),
    }
}
