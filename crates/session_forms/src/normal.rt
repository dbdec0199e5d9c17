ghost use Rattle.std.specs.Prelude.{◌≡◌, map, Bool, IfOk};
ghost use Rattle.behaviour_tree.specs.Data.{no_procs, proc, sequence};
ghost use Rattle.behaviour_tree.specs.View.{behaviour_view, procs_of};
ghost use Rattle.session_calculus.specs.Start as spec;
ghost use Rattle.session_calculus.specs.Terms.{all_done};
ghost use Rattle.session_forms.specs.Begins.{begun_view};
ghost use Rattle.session_forms.specs.Normal.{is_over, tidied};
ghost use Rattle.session_forms.specs.Rests.{rest_items};
ghost use Rattle.session_forms.specs.View.{members_view, state_view, term_view};

use crate::begun::Begun;
use crate::boxes::{finish, unwrap};
use crate::rest::Rest;
use crate::start::{begun_done, in_sequence, started, started_both};
use crate::state::ScopeState;
use crate::term::{Strand, Term};
use behaviour_tree::Behaviour;
use std::alloc::{AllocError, Global};

/// Whether each member is done.
fn are_done(strands: &[Strand]) -> bool
    ensures { result ≡ all_done (members_view strands.now) }
{
    for strand in strands {
        if !strand.form.is_done() {
            return false;
        }
    }
    true
}

/// Whether a scope in this state is through once its body is done.
fn ends_with_body(state: &ScopeState) -> bool
    ensures { result ≡ is_over (state_view state.now) }
{
    match state {
        ScopeState::Last | ScopeState::Zombie => true,
        ScopeState::Live | ScopeState::Caught(_) | ScopeState::Term => false,
    }
}

/// Brings a form to normal form whose parts are, and whose head is not done.
fn tidy(form: &mut Box<Term>)
    ensures { term_view form.new.value ≡ tidied (term_view form.old.value) }
{
    match &**form {
        Term::Seq { rest, .. } => {
            if rest.as_slice().is_empty() {
                unwrap(form);
            }
        }
        Term::Par(strands) => {
            if are_done(strands) {
                finish(form);
            }
        }
        Term::Scope { body, state, .. } => {
            if body.is_done() && ends_with_body(state) {
                finish(form);
            }
        }
        Term::Prot(body) => {
            if body.is_done() || body.is_prot() {
                unwrap(form);
            }
        }
        Term::Done | Term::Place(_) | Term::Thrown(_) | Term::Exec { .. } => {}
        Term::Fail { .. } | Term::Wait(_) | Term::DeadWait(_) => {}
    }
}

/// Brings a form to normal form after an event, innermost first. It gives the next strand.
#[cycle(normal)]
pub fn normalize(alloc: Global, form: &mut Box<Term>, next: u64) -> Result<u64, AllocError>
    ensures { IfOk result
        (λ n. spec.begun (term_view form.new.value) n ≡ spec.normal (term_view form.old.value) next) }
{
    match &mut **form {
        Term::Seq { head, rest } => {
            let next = normalize(alloc, head, next)?;
            if !head.is_done() {
                tidy(form);
                return Ok(next);
            }
            let rest = rest.again()?;
            let Begun { form: begun, next } = begin_rest(alloc, rest, next)?;
            *form = begun;
            Ok(next)
        }
        Term::Par(strands) => {
            let next = normalize_strands(alloc, strands, next)?;
            tidy(form);
            Ok(next)
        }
        Term::Scope { body, .. } => {
            let next = normalize(alloc, body, next)?;
            tidy(form);
            Ok(next)
        }
        Term::Exec { body, .. } => normalize(alloc, body, next),
        Term::Fail { body, .. } => normalize(alloc, body, next),
        Term::Prot(body) => {
            let next = normalize(alloc, body, next)?;
            tidy(form);
            Ok(next)
        }
        Term::Done | Term::Place(_) | Term::Thrown(_) | Term::Wait(_) | Term::DeadWait(_) => {
            Ok(next)
        }
    }
}

/// Brings the members of a parallel to normal form.
#[cycle(normal)]
fn normalize_strands(alloc: Global, strands: &mut Vec<Strand>, next: u64) -> Result<u64, AllocError>
    ensures { IfOk result
        (λ n. spec.begun (members_view strands.new.items) n
        ≡ spec.normal_members (members_view strands.old.items) next) }
{
    normalize_members(alloc, strands.as_mut_slice(), next)
}

/// Brings members to normal form, from left to right.
#[cycle(normal)]
fn normalize_members(alloc: Global, strands: &mut [Strand], next: u64) -> Result<u64, AllocError>
    ensures { IfOk result
        (λ n. spec.begun (members_view strands.new) n ≡ spec.normal_members (members_view strands.old) next) }
{
    let mut after = next;
    for strand in strands.iter_mut() {
        after = normalize(alloc, &mut strand.form, after)?;
    }
    Ok(after)
}

/// A form begins, in normal form.
#[cycle(normal)]
pub fn begin(alloc: Global, behaviour: &Behaviour, next: u64) -> Result<Begun, AllocError>
    ensures { IfOk result (λ b. begun_view b ≡ spec.begin (behaviour_view behaviour.now) next) }
{
    let Begun { mut form, next } = started(alloc, behaviour, next)?;
    let next = normalize(alloc, &mut form, next)?;
    Ok(Begun { form, next })
}

/// The first of the rests begins, and the next where it is done at once.
#[cycle(normal)]
pub fn begin_rest(alloc: Global, rest: Rest, next: u64) -> Result<Begun, AllocError>
    ensures { IfOk result
        (λ b. begun_view b ≡ spec.begin_rest (procs_of (map behaviour_view (rest_items rest))) next) }
{
    let mut after = next;
    for i in 0..rest.as_slice().len() {
        let list = rest.as_slice();
        let Begun { form, next } = begin(alloc, &list[i], after)?;
        if !form.is_done() {
            return Ok(Begun {
                form: in_sequence(alloc, form, rest.behind(i + 1))?,
                next,
            });
        }
        after = next;
    }
    begun_done(alloc, after)
}

/// Two behaviours begin in sequence, in normal form.
pub fn begin_both(
    alloc: Global,
    first: &Behaviour,
    second: &Behaviour,
    next: u64,
) -> Result<Begun, AllocError>
    ensures { IfOk result
        (λ b. begun_view b ≡ spec.begin (sequence
        (proc (behaviour_view first.now) (proc (behaviour_view second.now) no_procs))) next) }
{
    let Begun { mut form, next } = started_both(alloc, first, second, next)?;
    let next = normalize(alloc, &mut form, next)?;
    Ok(Begun { form, next })
}
