ghost use Rattle.std.specs.Prelude.{◌≡◌, false, IfOk, OnErr};
ghost use Rattle.std.specs.Arc.{arc_value};
ghost use Rattle.behaviour_tree.specs.PartsView.{parts_of};
ghost use Rattle.session_calculus.specs.After as spec;
ghost use Rattle.session_calculus.specs.Throw.{throw};
ghost use Rattle.session_forms.specs.View.{fault_view, term_view};
ghost use Rattle.session_faults.specs.Decisions.{decision_view};
ghost use Rattle.term_session.specs.Configs.{config_view};
ghost use Rattle.term_session.specs.Raised.{event_of_fault};
ghost use Rattle.term_session.specs.Steps.{stepped, stepped_by};

use crate::act::act;
use crate::config::{Config, outermost};
use crate::turn::{Turn, Walked};
use behaviour_tree::{Event, Kind, standard};
use session_faults::{Decision, carry, decided};
use session_forms::Fault;
use std::alloc::{AllocError, Global};
use std::sync::Arc;

/// Does the event of a strand, and gives it; none where the strand has none for what the office gave, and then all
/// stays. Nothing is taken of a session that has ended.
#[tactic(auto, using(crate::proofs::Going::after_ended, crate::proofs::Going::after_finished, crate::proofs::Going::after_going))]
pub fn step(alloc: Global, config: &mut Config, turn: Turn<'_>) -> Result<Option<Event>, AllocError>
    ensures event { IfOk result
        (λ e. stepped (config_view config.new) e
        ≡ stepped_by (config_view config.old)
        (spec.after (parts_of turn.entry.actor.program.now) turn.entry.actor.service (config_view config.old)
        turn.entry.actor.strand turn.entry.given.now)) }
    ensures memory { OnErr result (config.old.ended ≡ false) }
{
    if config.ended {
        return Ok(None);
    }
    if config.is_finished() {
        return Ok(finish(config, turn));
    }
    let stepped = go_on(alloc, config, turn)?;
    Ok(stepped)
}

/// Strand 0 finishes a session that has nothing left to do.
#[tactic(auto, using(crate::proofs::Gifts::finishes_none, crate::proofs::Gifts::finishes_now))]
fn finish(config: &mut Config, turn: Turn<'_>) -> Option<Event>
    ensures { stepped (config_view config.new) result
        ≡ stepped_by (config_view config.old)
        (spec.finishes (config_view config.old) turn.entry.actor.strand turn.entry.given.now) }
{
    if turn.actor.strand != 0 || !turn.gives_nothing() {
        return None;
    }
    config.ended = true;
    Some(Event {
        strand: 0,
        kind: Kind::Finish,
        number: 0,
        place: 0,
        fault: 0,
    })
}

/// Does the event of a strand of a session that has something left to do.
fn go_on(alloc: Global, config: &mut Config, turn: Turn<'_>) -> Result<Option<Event>, AllocError>
    ensures { IfOk result
        (λ e. stepped (config_view config.new) e
        ≡ stepped_by (config_view config.old)
        (spec.acts (config_view config.old)
        (spec.seen_by (parts_of turn.entry.actor.program.now) turn.entry.actor.service (config_view config.old)
        turn.entry.actor.strand turn.entry.given.now))) }
{
    let mut around = outermost(alloc);
    let walked = act(
        alloc,
        &mut config.form,
        0,
        turn,
        &mut around,
        &mut config.memory,
    )?;
    match walked {
        Walked::Stuck => Ok(None),
        Walked::Faulted(fault) => {
            let raised = raise(alloc, config, turn, &fault)?;
            Ok(raised)
        }
        Walked::Went { event, need: _ } => {
            config.settle(alloc)?;
            Ok(Some(event))
        }
    }
}

/// Raises the fault of a strand, where the office gave nothing and no ready strand blocks it.
#[tactic(auto, using(crate::proofs::Gifts::raises_none, crate::proofs::Stepping::stays_blocked, crate::proofs::Stepping::comes_to_rest))]
fn raise(
    alloc: Global,
    config: &mut Config,
    turn: Turn<'_>,
    fault: &Arc<Fault>,
) -> Result<Option<Event>, AllocError>
    ensures { IfOk result
        (λ e. stepped (config_view config.new) e
        ≡ stepped_by (config_view config.old)
        (spec.raises (config_view config.old) turn.entry.actor.strand turn.entry.given.now
        (fault_view (arc_value fault.now)))) }
{
    if !turn.gives_nothing() {
        return Ok(None);
    }
    let strand = turn.actor.strand;
    let decision = decided(&config.form, strand, fault.name, 0);
    let Some(event) = raise_event(decision, strand, fault.name) else {
        return Ok(None);
    };
    carry(alloc, &mut config.form, strand, fault, 0)?;
    config.settle(alloc)?;
    Ok(Some(event))
}

/// The event of a fault that a scope keeps, or that goes above all of them; none where it is blocked.
fn raise_event(decision: Decision, strand: u64, fault: u32) -> Option<Event>
    ensures { result ≡ event_of_fault strand fault (decision_view decision) }
{
    match decision {
        Decision::Caught(scope) => Some(raised(strand, 0, scope, fault)),
        Decision::Ended(scope) => Some(raised(strand, 1, scope, fault)),
        Decision::Up => Some(raised(strand, 2, standard::MAIN, fault)),
        Decision::Blocked(_) | Decision::Absent => None,
    }
}

/// The event of a fault, by the way that it came and the scope that it came to.
fn raised(strand: u64, way: u32, scope: u32, fault: u32) -> Event
    ensures { result ≡ spec.raise_event strand way scope fault }
{
    Event {
        strand,
        kind: Kind::Raise,
        number: way,
        place: scope,
        fault,
    }
}
