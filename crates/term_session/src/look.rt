ghost use Rattle.std.specs.Prelude.{◌≡◌, is_some, IfOk};
ghost use Rattle.behaviour_tree.specs.View.{behaviour_view};
ghost use Rattle.behaviour_tree.specs.declared.words.Given.TheVariants as given;
ghost use Rattle.session_events.specs.Asked as asked;
ghost use Rattle.session_calculus.specs.Faults as faults;
ghost use Rattle.session_events.specs.Seen.{seen_in};
ghost use Rattle.session_forms.specs.View.{members_view, state_view, term_view};
ghost use Rattle.term_session.specs.Asks.{asked_of_scope};
ghost use Rattle.term_session.specs.Looks.{looked_view};
ghost use Rattle.term_session.specs.Walks as spec;

use behaviour_tree::{Behaviour, Need};
use session_events::{Scene, asked_of, failure_told, fault_of, replied};
use session_faults::place_of;
use session_forms::{ScopeState, Strand, Term, boxed};
use session_values::Memory;
use std::alloc::{AllocError, Global};

/// What looking at a form tells of a strand: it has no event there, or a fault of this name, or its event asks this.
#[derive(Drop)]
pub enum Looked {
    Idle,
    Failing(u32),
    Asking(Box<Need>),
}

/// Looks at a form, which runs in the strand `own`, for the strand that acts.
#[cycle(look)]
#[tactic(auto, using(crate::proofs::Acting::looks_as_alone, crate::proofs::Acting::done_scope_looked, crate::proofs::Acting::done_exec_looked))]
pub fn look(
    alloc: Global,
    term: &Term,
    own: u64,
    scene: Scene<'_>,
    memory: &Memory,
) -> Result<Looked, AllocError>
    ensures { IfOk result
        (λ l. looked_view l ≡ spec.looked_in (seen_in scene.entry given.Nothing memory.now) own
        (term_view term.now)) }
{
    match term {
        Term::Done => Ok(Looked::Idle),
        Term::Seq { head, .. } => look(alloc, head, own, scene, memory),
        Term::Par(strands) => look_among(alloc, strands, scene, memory),
        Term::Prot(body) => look(alloc, body, own, scene, memory),
        Term::Scope {
            installed,
            body,
            ..
        } => {
            if body.is_done() {
                return look_alone(alloc, term, own, scene, memory);
            }
            let actor = scene.actor;
            let looked = look(alloc, body, own, Scene { actor, installed }, memory)?;
            Ok(looked)
        }
        Term::Exec { body, .. } => {
            if body.is_done() {
                return look_alone(alloc, term, own, scene, memory);
            }
            let looked = look(alloc, body, own, scene, memory)?;
            Ok(looked)
        }
        Term::Place(_) | Term::Thrown(_) | Term::Fail { .. } => {
            look_alone(alloc, term, own, scene, memory)
        }
        Term::Wait(_) | Term::DeadWait(_) => look_alone(alloc, term, own, scene, memory),
    }
}

/// Looks at the first member that the strand stands in.
#[cycle(look)]
#[tactic(auto, using(crate::proofs::Viewed::none_looked))]
fn look_among(
    alloc: Global,
    strands: &[Strand],
    scene: Scene<'_>,
    memory: &Memory,
) -> Result<Looked, AllocError>
    ensures { IfOk result
        (λ l. looked_view l ≡ spec.looked_among (seen_in scene.entry given.Nothing memory.now)
        (members_view strands.now)) }
{
    let Some(place) = place_of(strands, scene.actor.strand) else {
        return Ok(Looked::Idle);
    };
    let member = &strands[place];
    let looked = look(alloc, &member.form, member.number, scene, memory)?;
    Ok(looked)
}

/// Looks at a form that acts itself, where the strand is its own.
fn look_alone(
    alloc: Global,
    term: &Term,
    own: u64,
    scene: Scene<'_>,
    memory: &Memory,
) -> Result<Looked, AllocError>
    ensures { IfOk result
        (λ l. looked_view l ≡ spec.looks_alone (seen_in scene.entry given.Nothing memory.now) own
        (term_view term.now)) }
{
    if scene.actor.strand != own {
        return Ok(Looked::Idle);
    }
    look_here(alloc, term, scene, memory)
}

/// Looks at a form that acts itself.
fn look_here(
    alloc: Global,
    term: &Term,
    scene: Scene<'_>,
    memory: &Memory,
) -> Result<Looked, AllocError>
    ensures { IfOk result
        (λ l. looked_view l ≡ spec.looks_here (seen_in scene.entry given.Nothing memory.now) (term_view term.now)) }
{
    match term {
        Term::Place(place) => look_place(alloc, place, scene, memory),
        Term::Thrown(fault) => Ok(Looked::Failing(fault.name)),
        Term::Scope { body, state, .. } => {
            if body.is_done() && may_act(state) {
                return asking(alloc, Need::Nothing);
            }
            Ok(Looked::Idle)
        }
        Term::Exec {
            message,
            op,
            path,
            body,
        } => {
            if !body.is_done() {
                return Ok(Looked::Idle);
            }
            let replied = replied(alloc, *message, *op, path, scene, memory)?;
            Ok(Looked::Asking(replied.need))
        }
        Term::Fail { message, fault, .. } => {
            let nothing = boxed(alloc, Term::Done)?;
            let told = failure_told(alloc, *message, fault, nothing, scene)?;
            Ok(Looked::Asking(told.need))
        }
        Term::Wait(call) => asking(alloc, Need::Answer { call: call.number }),
        Term::DeadWait(call) => asking(alloc, Need::Answer { call: call.number }),
        Term::Done | Term::Seq { .. } | Term::Par(_) | Term::Prot(_) => Ok(Looked::Idle),
    }
}

/// Looks at a place.
fn look_place(
    alloc: Global,
    place: &Behaviour,
    scene: Scene<'_>,
    memory: &Memory,
) -> Result<Looked, AllocError>
    ensures { IfOk result
        (λ l. looked_view l ≡ spec.looked
        (faults.fault_of (seen_in scene.entry given.Nothing memory.now) (behaviour_view place.now))
        (asked.asked (seen_in scene.entry given.Nothing memory.now) (behaviour_view place.now))) }
{
    if let Some(fault) = fault_of(alloc, place, scene.actor, scene.installed, memory)? {
        return Ok(Looked::Failing(fault.name));
    }
    match asked_of(alloc, place, scene.actor, scene.installed, memory)? {
        None => Ok(Looked::Idle),
        Some(need) => Ok(Looked::Asking(need)),
    }
}

/// A strand whose event asks this.
fn asking(alloc: Global, need: Need) -> Result<Looked, AllocError>
    ensures { IfOk result (λ l. looked_view l ≡ spec.asking need) }
{
    Ok(Looked::Asking(Box::new(alloc, need)?))
}

/// Whether a scope in this state has an event once its body is done.
fn may_act(state: &ScopeState) -> bool
    ensures { result ≡ is_some (asked_of_scope (state_view state.now)) }
{
    match state {
        ScopeState::Live | ScopeState::Caught(_) | ScopeState::Term => true,
        ScopeState::Last | ScopeState::Zombie => false,
    }
}
