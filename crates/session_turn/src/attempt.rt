ghost use Rattle.std.specs.Prelude.{◌≡◌, true, List, IfOk, IfSome, IsSome, MatchOption, OnOk};
ghost use Rattle.behaviour_tree.specs.PartsView.{parts_of};
ghost use Rattle.behaviour_tree.specs.declared.words.Event.{Event as Row};
ghost use Rattle.session_calculus.specs.After.{HasEvent, after as after_of};
ghost use Rattle.behaviour_tree.specs.declared.words.Need.TheVariants as need;
ghost use Rattle.office_core.specs.Limits.{run_of};
ghost use Rattle.run_record.specs.Steps.{binding};
ghost use Rattle.session_turn.specs.Asking.{may_call as may};
ghost use Rattle.session_turn.specs.Attempts.{Asks, Gave, GaveNone, StoodStill, WentOn, standing};
ghost use Rattle.session_turn.specs.Lives.{Kept, moment};
ghost use Rattle.session_turn.specs.Seen.{seat};
ghost use Rattle.session_turn.specs.Turns.{Happened};

use crate::desk::Desk;
use crate::laws::sessions_may_ask;
use crate::session::Session;
use crate::turn::Player;
use behaviour_tree::{Event, Given, Need, Numbers, Program};
use correlation::BindReply;
use std::alloc::AllocError;

/// Does the event of a strand, if the office allows it.
pub fn attempt<D: Desk, S: Session>(
    desk: &D,
    pass: &mut D::Pass,
    player: Player<'_>,
    session: &mut S,
    strand: u64,
) -> Result<Option<Event>, AllocError>
    requires pass { D.is_pass desk.now pass.old player.number }
    requires run { (D.office desk.now).setting ≡ run_of (parts_of player.program.now) }
    requires kept { ∥ ((es : List Row) × Kept (seat (D.office desk.now) player.number) es
        (moment (S.service_of session.old) (S.config_of session.old) (D.seen pass.old))) ∥₁ }
    requires enabled { IfSome (S.config_of session.old)
        (λ c. HasEvent (D.office desk.now).setting.parts (S.service_of session.old) c strand) }
    ensures pass { OnOk result (D.is_pass desk.now pass.new player.entry.number) }
    ensures service { S.service_of session.new ≡ S.service_of session.old }
    ensures attempted { IfOk result (λ o. MatchOption o
        (StoodStill (seat (D.office desk.now) player.entry.number) strand
        (moment (S.service_of session.old) (S.config_of session.old) (D.seen pass.old))
        (moment (S.service_of session.new) (S.config_of session.new) (D.seen pass.new)))
        (Happened (seat (D.office desk.now) player.entry.number) strand
        (moment (S.service_of session.old) (S.config_of session.old) (D.seen pass.old))
        (moment (S.service_of session.new) (S.config_of session.new) (D.seen pass.new)))) }
{
    let need = need_of(player.program, session, strand)?;
    sessions_may_ask();
    match ask(desk, pass, player.number, need)? {
        None => Ok(None),
        Some(gift) => {
            let event = go_on(player.program, session, strand, gift)?;
            Ok(Some(event))
        }
    }
}

/// What the event of a strand asks for.
pub fn need_of<S: Session>(program: &Program, session: &S, strand: u64) -> Result<Need, AllocError>
    requires enabled { IfSome (S.config_of session.now)
        (λ c. HasEvent (parts_of program.now) (S.service_of session.now) c strand) }
    ensures asks { IfOk result (Asks (standing (parts_of program.now) (S.service_of session.now)
        (S.config_of session.now)) strand) }
{
    match session.need(program, strand)? {
        Some(need) => Ok(need),
        None => unreachable!(),
    }
}

/// Asks the office for what an event needs, and gives its gift, or none where nothing is there.
fn ask<D: Desk>(
    desk: &D,
    pass: &mut D::Pass,
    number: u32,
    need: Need,
) -> Result<Option<Given>, AllocError>
    requires pass { D.is_pass desk.now pass.old number }
    requires may { may (seat (D.office desk.now) number) (D.seen pass.old) need ≡ true }
    ensures pass { OnOk result (D.is_pass desk.now pass.new number) }
    ensures asked { IfOk result (λ o. MatchOption o
        (GaveNone (seat (D.office desk.now) number) need (D.seen pass.old) (D.seen pass.new))
        (Gave (seat (D.office desk.now) number) need (D.seen pass.old) (D.seen pass.new))) }
{
    match need {
        Need::Nothing => Ok(Some(Given::Nothing)),
        Need::Take { ops } => mail_for(desk, pass, number, ops),
        Need::Answer { call } => match desk.take_answer(pass, number, call)? {
            None => Ok(None),
            Some(outcome) => Ok(Some(Given::Answer { outcome })),
        },
        Need::Bind { variable, value } => {
            let reply = desk.bind(pass, number, variable, value)?;
            Ok(Some(gift_of(reply)))
        }
        Need::Reply { message, outcome } => {
            desk.reply(pass, number, message, outcome)?;
            Ok(Some(Given::Nothing))
        }
        Need::Send {
            call,
            port,
            op,
            value,
            wants,
        } => {
            desk.send(pass, number, call, port, op, value, wants)?;
            Ok(Some(Given::Nothing))
        }
        Need::Finish => {
            desk.end(pass, number)?;
            Ok(Some(Given::Nothing))
        }
    }
}

/// The first message of these operations, where one waits.
fn mail_for<D: Desk>(
    desk: &D,
    pass: &mut D::Pass,
    number: u32,
    ops: Numbers,
) -> Result<Option<Given>, AllocError>
    requires pass { D.is_pass desk.now pass.old number }
    requires may { may (seat (D.office desk.now) number) (D.seen pass.old) (need.Take ops) ≡ true }
    ensures pass { OnOk result (D.is_pass desk.now pass.new number) }
    ensures asked { IfOk result (λ o. MatchOption o
        (GaveNone (seat (D.office desk.now) number) (need.Take ops) (D.seen pass.old) (D.seen pass.new))
        (Gave (seat (D.office desk.now) number) (need.Take ops) (D.seen pass.old) (D.seen pass.new))) }
{
    match desk.take(pass, number, ops.as_slice())? {
        None => Ok(None),
        Some(mail) => Ok(Some(Given::Mail {
            message: mail.message,
            op: mail.op,
            value: mail.value,
        })),
    }
}

/// The answer of a binding, as its event has it.
fn gift_of(reply: BindReply) -> Given
    ensures { result ≡ binding reply }
{
    match reply {
        BindReply::Bound => Given::Bound,
        BindReply::Held(session) => Given::Held(session),
        BindReply::Fixed => Given::Fixed,
    }
}

/// Does the event of a strand for a gift that it has an event for.
fn go_on<S: Session>(
    program: &Program,
    session: &mut S,
    strand: u64,
    given: Given,
) -> Result<Event, AllocError>
    requires { IfSome (S.config_of session.old)
        (λ c. IsSome (after_of (parts_of program.now) (S.service_of session.old) c strand given)) }
    ensures done { IfOk result (WentOn (standing (parts_of program.now) (S.service_of session.old)
        (S.config_of session.old)) (standing (parts_of program.now) (S.service_of session.new)
        (S.config_of session.new)) strand given) }
    ensures service { S.service_of session.new ≡ S.service_of session.old }
{
    match session.step(program, strand, given)? {
        Some(event) => Ok(event),
        None => unreachable!(),
    }
}
