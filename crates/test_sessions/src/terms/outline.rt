//! Words of terms.

use behaviour_tree::Behaviour;
use session_forms::{Call, ScopeState, Strand, Term};
use std::alloc::AllocError;
use test_behaviours::Outline;

/// Tells a form, its parts first.
///
/// - `done`, `thrown:F`, `wait:K` and `dead:K`, these with their handlers before them; a place is the words of its
///   behaviour.
/// - `then:N` has the head and N rests before it; `beside:N` has N members, and each ends with `strand:N`.
/// - `live:S`, `caught:S`, `term:S`, `last:S` and `zombie:S` are scopes; `exec:M`, `fail:M` and `prot` are what they
///   stand for. `by:F` is the fault that a scope caught or that a request failed by.
#[cycle(form)]
pub fn tell_form(outline: &mut Outline, form: &Term) -> Result<(), AllocError> {
    match form {
        Term::Done => outline.word("done"),
        Term::Place(behaviour) => outline.behaviour(behaviour),
        Term::Thrown(fault) => outline.numbered("thrown", fault.name),
        Term::Seq { head, rest } => {
            tell_form(outline, head)?;
            tell_rests(outline, rest.as_slice())
        }
        Term::Par(strands) => {
            tell_members(outline, strands)?;
            outline.counted("beside", strands.len())
        }
        Term::Scope {
            installed,
            body,
            state,
        } => {
            tell_form(outline, body)?;
            tell_state(outline, installed.scope, state)
        }
        Term::Exec { message, body, .. } => {
            tell_form(outline, body)?;
            outline.numbered("exec", *message)
        }
        Term::Fail {
            message,
            fault,
            body,
        } => {
            tell_form(outline, body)?;
            outline.numbered("fail", *message)?;
            outline.numbered("by", fault.name)
        }
        Term::Wait(call) => tell_call(outline, "wait", call),
        Term::DeadWait(call) => tell_call(outline, "dead", call),
        Term::Prot(body) => {
            tell_form(outline, body)?;
            outline.word("prot")
        }
    }
}

#[cycle(form)]
fn tell_members(outline: &mut Outline, members: &[Strand]) -> Result<(), AllocError> {
    for member in members {
        tell_form(outline, &member.form)?;
        outline.numbered("strand", small(member.number))?;
    }
    Ok(())
}

fn tell_rests(outline: &mut Outline, rests: &[Behaviour]) -> Result<(), AllocError> {
    for behaviour in rests {
        outline.behaviour(behaviour)?;
    }
    outline.counted("then", rests.len())
}

fn tell_state(outline: &mut Outline, scope: u32, state: &ScopeState) -> Result<(), AllocError> {
    match state {
        ScopeState::Live => outline.numbered("live", scope),
        ScopeState::Caught(fault) => {
            outline.numbered("caught", scope)?;
            outline.numbered("by", fault.name)
        }
        ScopeState::Term => outline.numbered("term", scope),
        ScopeState::Last => outline.numbered("last", scope),
        ScopeState::Zombie => outline.numbered("zombie", scope),
    }
}

fn tell_call(outline: &mut Outline, word: &str, call: &Call) -> Result<(), AllocError> {
    outline.handlers(&call.handlers)?;
    outline.numbered(word, call.number)
}

/// A number of a strand, which is small in every row.
pub fn small(number: u64) -> u32 {
    u32::try_from(number).unwrap_or(u32::MAX)
}
