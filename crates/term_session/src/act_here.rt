ghost use Rattle.std.specs.Prelude.{◌≡◌, option_map, IfOk, IfNone};
ghost use Rattle.handler_table.specs.View.{table_view};
ghost use Rattle.behaviour_tree.specs.View.{handlers_view, path_view};
ghost use Rattle.session_calculus.specs.Answers as answers;
ghost use Rattle.session_calculus.specs.Moves.{ungiven};
ghost use Rattle.session_calculus.specs.Replies as replies;
ghost use Rattle.session_calculus.specs.Terms.{done};
ghost use Rattle.session_forms.specs.View.{fault_view, state_view, term_view};
ghost use Rattle.session_values.specs.declared.memory.Memory.{Memory as Held};
ghost use Rattle.term_session.specs.Turns.{moved_at, seen_at, walked_view};
ghost use Rattle.term_session.specs.Walks as spec;

use crate::turn::{Turn, Walked, came, went};
use behaviour_tree::{Given, PathExpr};
use session_events::{
    Moved, Scene, acted, answer_came, failure_told, killed_answer_came, replied, scope_acts,
};
use session_forms::{Call, Fault, Installed, ScopeState, Term, boxed, replaced};
use session_values::Memory;
use std::alloc::{AllocError, Global};
use std::sync::Arc;

/// Acts in a form that acts itself. Nothing comes of any other.
#[tactic(auto, using(crate::proofs::Here::form_acts))]
pub fn act_here(
    alloc: Global,
    form: &mut Box<Term>,
    turn: Turn<'_>,
    installed: &mut Installed,
    memory: &mut Memory,
) -> Result<Walked, AllocError>
    ensures event { IfOk result
        (λ r. walked_view turn.entry r (term_view form.new.value) installed.new memory.new
        ≡ spec.acts_here (seen_at turn.entry installed.old memory.old) (term_view form.old.value)) }
    ensures name { installed.new.scope ≡ installed.old.scope }
{
    match &mut **form {
        Term::Place(place) => {
            let acted = acted(alloc, place, turn.given, turn.actor, installed, memory)?;
            Ok(came(form, acted))
        }
        Term::Thrown(fault) => Ok(Walked::Faulted(Arc::try_clone(fault)?)),
        Term::Scope {
            installed: scope,
            body,
            state,
        } => {
            if !body.is_done() {
                return Ok(Walked::Stuck);
            }
            let moved = scope_event(alloc, scope, state, turn, installed, memory)?;
            Ok(went(form, moved))
        }
        Term::Exec {
            message,
            op,
            path,
            body,
        } => {
            if !body.is_done() {
                return Ok(Walked::Stuck);
            }
            let moved = reply(alloc, *message, *op, path, turn, installed, memory)?;
            Ok(went(form, moved))
        }
        Term::Fail {
            message,
            fault,
            body,
        } => {
            let moved = failure(alloc, *message, fault, body, turn, installed)?;
            Ok(went(form, moved))
        }
        Term::Wait(call) => {
            let moved = answer(alloc, call, turn, installed, memory)?;
            Ok(went(form, moved))
        }
        Term::DeadWait(call) => {
            let moved = killed_answer(alloc, call, turn, installed)?;
            Ok(went(form, moved))
        }
        Term::Done | Term::Seq { .. } | Term::Par(_) | Term::Prot(_) => Ok(Walked::Stuck),
    }
}

/// The event of a scope whose body is done, in the scope around it.
#[tactic(auto, using(crate::proofs::Gifts::no_scope_event))]
fn scope_event(
    alloc: Global,
    own: &mut Installed,
    state: &ScopeState,
    turn: Turn<'_>,
    around: &mut Installed,
    memory: &mut Memory,
) -> Result<Option<Moved>, AllocError>
    ensures event { IfOk result
        (λ m. option_map (λ m. moved_at m around.new memory.new) m
        ≡ spec.scope_event (seen_at turn.entry around.old memory.old) own.old.scope (table_view own.old.table)
        (state_view state.now)) }
    ensures name { around.new.scope ≡ around.old.scope }
    ensures own { IfOk result (λ m. IfNone m (own.new ≡ own.old)) }
    ensures around { IfOk result (λ m. IfNone m (around.new ≡ around.old)) }
    ensures memory { IfOk result (λ m. IfNone m (memory.new ≡ memory.old)) }
{
    if !turn.gives_nothing() {
        return Ok(None);
    }
    Ok(scope_acts(alloc, own, state, turn.actor, around, memory)?)
}

/// The answer of a request whose body is done.
#[tactic(auto, using(crate::proofs::Gifts::ungiven_none))]
fn reply(
    alloc: Global,
    message: u32,
    op: u32,
    path: &Option<PathExpr>,
    turn: Turn<'_>,
    installed: &Installed,
    memory: &Memory,
) -> Result<Option<Moved>, AllocError>
    ensures { let s = seen_at turn.entry installed.now memory.now in IfOk result
        (λ m. option_map (λ m. moved_at m installed.now memory.now) m
        ≡ ungiven s (replies.replies s message (replies.reply_of s op (option_map path_view path.now)) done)) }
{
    if !turn.gives_nothing() {
        return Ok(None);
    }
    let actor = turn.actor;
    let scene = Scene { actor, installed };
    Ok(Some(replied(alloc, message, op, path, scene, memory)?))
}

/// The fault of a failed request is told.
#[tactic(auto, using(crate::proofs::Gifts::ungiven_none))]
fn failure(
    alloc: Global,
    message: u32,
    fault: &Fault,
    body: &mut Box<Term>,
    turn: Turn<'_>,
    installed: &Installed,
) -> Result<Option<Moved>, AllocError>
    ensures event { (k : Held) → let s = seen_at turn.entry installed.now k in IfOk result
        (λ m. option_map (λ m. moved_at m installed.now k) m
        ≡ ungiven s (replies.replies s message (replies.outcome_of_fault s.parts (fault_view fault.now))
        (term_view body.old.value))) }
    ensures body { IfOk result (λ m. IfNone m (body.new.value ≡ body.old.value)) }
{
    if !turn.gives_nothing() {
        return Ok(None);
    }
    let actor = turn.actor;
    let scene = Scene { actor, installed };
    let body = replaced(body, boxed(alloc, Term::Done)?);
    Ok(Some(failure_told(alloc, message, fault, body, scene)?))
}

/// The answer of a call that waits.
fn answer(
    alloc: Global,
    call: &Call,
    turn: Turn<'_>,
    installed: &mut Installed,
    memory: &mut Memory,
) -> Result<Option<Moved>, AllocError>
    ensures event { IfOk result
        (λ m. option_map (λ m. moved_at m installed.new memory.new) m
        ≡ answers.with_answer (seen_at turn.entry installed.old memory.old)
        (answers.call_of call.now.number call.now.port call.now.op)
        (answers.answers (seen_at turn.entry installed.old memory.old)
        (answers.call_of call.now.number call.now.port call.now.op) (option_map path_view call.now.target)
        (handlers_view call.now.handlers))) }
    ensures name { installed.new.scope ≡ installed.old.scope }
    ensures installed { IfOk result (λ m. IfNone m (installed.new ≡ installed.old)) }
    ensures memory { IfOk result (λ m. IfNone m (memory.new ≡ memory.old)) }
{
    match turn.given {
        Given::Answer { outcome } => Ok(Some(answer_came(
            alloc, call, outcome, turn.actor, installed, memory,
        )?)),
        Given::Nothing | Given::Mail { .. } => Ok(None),
        Given::Bound | Given::Held(_) | Given::Fixed => Ok(None),
    }
}

/// The answer of a call that was killed while it waited.
fn killed_answer(
    alloc: Global,
    call: &Call,
    turn: Turn<'_>,
    installed: &mut Installed,
) -> Result<Option<Moved>, AllocError>
    ensures event { (k : Held) → IfOk result
        (λ m. option_map (λ m. moved_at m installed.new k) m
        ≡ answers.with_answer (seen_at turn.entry installed.old k)
        (answers.call_of call.now.number call.now.port call.now.op)
        (answers.dead_answers (seen_at turn.entry installed.old k)
        (answers.call_of call.now.number call.now.port call.now.op) (handlers_view call.now.handlers))) }
    ensures name { installed.new.scope ≡ installed.old.scope }
    ensures installed { IfOk result (λ m. IfNone m (installed.new ≡ installed.old)) }
{
    match turn.given {
        Given::Answer { outcome } => Ok(Some(killed_answer_came(
            alloc, call, outcome, turn.actor, installed,
        )?)),
        Given::Nothing | Given::Mail { .. } => Ok(None),
        Given::Bound | Given::Held(_) | Given::Fixed => Ok(None),
    }
}
