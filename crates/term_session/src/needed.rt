ghost use Rattle.std.specs.Prelude.{◌≡◌, option_map, Some, IfOk, MatchOption};
ghost use Rattle.behaviour_tree.specs.PartsView.{parts_of};
ghost use Rattle.behaviour_tree.specs.declared.words.Given.{Given};
ghost use Rattle.session_calculus.specs.After.{Done as DoneEvent, HasEvent, after};
ghost use Rattle.session_faults.specs.Decisions.{decision_view};
ghost use Rattle.term_session.specs.Asks as spec;
ghost use Rattle.term_session.specs.Configs.{config_view};

use crate::config::{Config, outermost};
use crate::glance::{Glance, foretold};
use crate::look::{Looked, look};
use behaviour_tree::Need;
use session_events::Scene;
use session_faults::{Decision, decided};
use session_values::Actor;
use std::alloc::{AllocError, Global};

/// What the event of a strand asks of the office, or none where it has no event.
#[tactic(auto, using(crate::proofs::Stepping::asked_told))]
pub fn needed(
    alloc: Global,
    config: &Config,
    actor: Actor<'_>,
) -> Result<Option<Box<Need>>, AllocError>
    ensures { IfOk result
        (λ n. option_map (λ b. b.value) n
        ≡ spec.needed (parts_of actor.entry.program.now) actor.entry.service (config_view config.now)
        actor.entry.strand) }
{
    if config.ended {
        return Ok(None);
    }
    if config.is_finished() {
        return needed_at_end(alloc, actor.strand);
    }
    let around = outermost(alloc);
    let installed = &around;
    match look(
        alloc,
        &config.form,
        0,
        Scene { actor, installed },
        &config.memory,
    )? {
        Looked::Idle => Ok(None),
        Looked::Asking(need) => Ok(Some(need)),
        Looked::Failing(fault) => {
            needed_by_fault(alloc, decided(&config.form, actor.strand, fault, 0))
        }
    }
}

/// What the event of a strand asks of the office, whatever that gives, or none where the strand has no event.
pub fn need_of(alloc: Global, config: &Config, actor: Actor<'_>) -> Result<Option<Need>, AllocError>
    ensures { IfOk result
        (λ o. MatchOption o (¬ HasEvent (parts_of actor.entry.program.now) actor.entry.service
        (config_view config.now) actor.entry.strand)
        (λ need. HasEvent (parts_of actor.entry.program.now) actor.entry.service (config_view config.now)
        actor.entry.strand × ((g : Given) (d : DoneEvent)
        → after (parts_of actor.entry.program.now) actor.entry.service (config_view config.now) actor.entry.strand g
        ≡ Some d → d.need ≡ need))) }
{
    match foretold(config, actor.strand) {
        Glance::Stores => Ok(Some(Need::Nothing)),
        Glance::Asks | Glance::Unknown => evaluated_need(alloc, config, actor),
    }
}

/// The same, for which values are evaluated.
fn evaluated_need(
    alloc: Global,
    config: &Config,
    actor: Actor<'_>,
) -> Result<Option<Need>, AllocError>
    ensures { IfOk result
        (λ o. MatchOption o (¬ HasEvent (parts_of actor.entry.program.now) actor.entry.service
        (config_view config.now) actor.entry.strand)
        (λ need. HasEvent (parts_of actor.entry.program.now) actor.entry.service (config_view config.now)
        actor.entry.strand × ((g : Given) (d : DoneEvent)
        → after (parts_of actor.entry.program.now) actor.entry.service (config_view config.now) actor.entry.strand g
        ≡ Some d → d.need ≡ need))) }
{
    let need = needed(alloc, config, actor)?;
    Ok(unboxed(need))
}

fn unboxed(need: Option<Box<Need>>) -> Option<Need>
    ensures { result ≡ option_map (λ b. b.value) need }
{
    match need {
        None => None,
        Some(need) => Some(Box::into_inner(need)),
    }
}

/// What a session that has nothing left to do asks.
fn needed_at_end(alloc: Global, strand: u64) -> Result<Option<Box<Need>>, AllocError>
    ensures { IfOk result (λ n. option_map (λ b. b.value) n ≡ spec.asked_at_end strand) }
{
    if strand != 0 {
        return Ok(None);
    }
    just(alloc, Need::Finish)
}

/// What a fault asks by where it goes.
fn needed_by_fault(alloc: Global, decision: Decision) -> Result<Option<Box<Need>>, AllocError>
    ensures { IfOk result (λ n. option_map (λ b. b.value) n ≡ spec.asked_by_throw (decision_view decision)) }
{
    match decision {
        Decision::Up | Decision::Caught(_) | Decision::Ended(_) => just(alloc, Need::Nothing),
        Decision::Blocked(_) | Decision::Absent => Ok(None),
    }
}

fn just(alloc: Global, need: Need) -> Result<Option<Box<Need>>, AllocError>
    ensures { IfOk result (λ n. option_map (λ b. b.value) n ≡ Some need) }
{
    Ok(Some(Box::new(alloc, need)?))
}
