ghost use Rattle.std.specs.Prelude.{◌≡◌, IfOk};
ghost use Rattle.std.specs.Arc.{arc_value};
ghost use Rattle.session_calculus.specs.Terms.{caught, term, zombie};
ghost use Rattle.session_forms.specs.View.{fault_view, state_view, term_view};
ghost use Rattle.session_faults.specs.Shapes as spec;

use session_forms::{Fault, ScopeState, Term, put, taken};
use std::alloc::AllocError;
use std::sync::Arc;

/// Whether a killed scope with this body and in this state is to run its termination handler.
pub fn terminates(body: &Term, state: &ScopeState) -> bool
    ensures { result ≡ spec.terminates (term_view body.now) (state_view state.now) }
{
    match state {
        ScopeState::Live => !body.is_done(),
        ScopeState::Caught(_) => true,
        ScopeState::Term | ScopeState::Last | ScopeState::Zombie => false,
    }
}

/// Whether a scope with this body and in this state is about to end.
pub fn may_end(body: &Term, state: &ScopeState) -> bool
    ensures { result ≡ spec.may_end (term_view body.now) (state_view state.now) }
{
    match state {
        ScopeState::Live => body.is_done(),
        ScopeState::Caught(_) => false,
        ScopeState::Term | ScopeState::Last | ScopeState::Zombie => false,
    }
}

/// A scope is to run its termination handler.
pub fn end_early(state: &mut ScopeState)
    ensures { state_view state.new ≡ term }
{
    *state = ScopeState::Term;
}

/// A scope caught a fault.
pub fn catch(state: &mut ScopeState, fault: &Arc<Fault>) -> Result<(), AllocError>
    ensures { IfOk result (λ _. state_view state.new ≡ caught (fault_view (arc_value fault.now))) }
{
    *state = ScopeState::Caught(Arc::try_clone(fault)?);
    Ok(())
}

/// A fault left a scope.
pub fn fade(state: &mut ScopeState)
    ensures { state_view state.new ≡ zombie }
{
    *state = ScopeState::Zombie;
}

/// The body of a request becomes a failed request.
pub fn fail(form: &mut Box<Term>, fault: &Arc<Fault>) -> Result<(), AllocError>
    ensures { IfOk result
        (λ _. term_view form.new.value ≡ spec.failed (fault_view (arc_value fault.now)) (term_view form.old.value)) }
{
    let fault = Arc::try_clone(fault)?;
    match taken(form) {
        Term::Exec {
            message,
            op: _,
            path: _,
            body,
        } => put(
            form,
            Term::Fail {
                message,
                fault,
                body,
            },
        ),
        other => put(form, other),
    }
    Ok(())
}

/// A call that waits goes on for its handlers alone.
pub fn stop_waiting(form: &mut Box<Term>)
    ensures { term_view form.new.value ≡ spec.unanswered (term_view form.old.value) }
{
    match taken(form) {
        Term::Wait(call) => put(form, Term::DeadWait(call)),
        other => put(form, other),
    }
}
