ghost use Rattle.std.specs.Prelude.{◌≡◌, ◌+◌, map, IfOk};
ghost use Rattle.behaviour_tree.specs.Data.{no_procs, proc, sequence};
ghost use Rattle.behaviour_tree.specs.FormedBehaviours.{count_of};
ghost use Rattle.behaviour_tree.specs.View.{behaviour_view, procs_of};
ghost use Rattle.session_calculus.specs.Start as spec;
ghost use Rattle.session_calculus.specs.Tables.{empty};
ghost use Rattle.session_calculus.specs.Terms.{done, in_scope, live, par, place, seq_of};
ghost use Rattle.session_forms.specs.Begins.{begun_view};
ghost use Rattle.session_forms.specs.Rests.{rest_items};
ghost use Rattle.session_forms.specs.View.{members_view, term_view};

use crate::begun::Begun;
use crate::boxes::boxed;
use crate::installed::Installed;
use crate::rest::Rest;
use crate::state::ScopeState;
use crate::term::{Strand, Term};
use behaviour_tree::Behaviour;
use handler_table::Table;
use std::alloc::{AllocError, Global};

/// A head with the forms that begin after it.
pub fn in_sequence(alloc: Global, head: Box<Term>, rest: Rest) -> Result<Box<Term>, AllocError>
    ensures { IfOk result
        (λ t. term_view t.value ≡ seq_of (term_view head.value) (procs_of (map behaviour_view (rest_items rest)))) }
{
    if rest.as_slice().is_empty() {
        return Ok(head);
    }
    boxed(alloc, Term::Seq { head, rest })
}

/// Nothing to do.
pub fn begun_done(alloc: Global, next: u64) -> Result<Begun, AllocError>
    ensures { IfOk result (λ b. begun_view b ≡ spec.begun done next) }
{
    Ok(Begun {
        form: boxed(alloc, Term::Done)?,
        next,
    })
}

/// A form in its place.
fn begun_place(alloc: Global, behaviour: &Behaviour, next: u64) -> Result<Begun, AllocError>
    ensures { IfOk result (λ b. begun_view b ≡ spec.begun (place (behaviour_view behaviour.now)) next) }
{
    let behaviour = Box::new(alloc, behaviour.copied()?)?;
    Ok(Begun {
        form: boxed(alloc, Term::Place(behaviour))?,
        next,
    })
}

/// A live scope around a body, without handlers.
fn around_body(alloc: Global, scope: u32, body: Box<Term>) -> Result<Box<Term>, AllocError>
    ensures { IfOk result (λ t. term_view t.value ≡ in_scope scope (term_view body.value) empty live) }
{
    let table = Table::empty(alloc);
    let installed = Box::new(alloc, Installed { scope, table })?;
    let state = ScopeState::Live;
    boxed(
        alloc,
        Term::Scope {
            installed,
            body,
            state,
        },
    )
}

/// A form as it starts.
#[cycle(start)]
pub fn started(alloc: Global, behaviour: &Behaviour, next: u64) -> Result<Begun, AllocError>
    ensures { IfOk result (λ b. begun_view b ≡ spec.start (behaviour_view behaviour.now) next) }
{
    match behaviour {
        Behaviour::Nothing | Behaviour::InnerHandler => begun_done(alloc, next),
        Behaviour::Block(body) => started(alloc, body, next),
        Behaviour::Sequence(list) => started_head(alloc, list, next),
        Behaviour::Parallel(list) => started_parallel(alloc, list, next),
        Behaviour::Scope { name, body } => {
            let Begun { form, next } = started(alloc, body, next)?;
            Ok(Begun {
                form: around_body(alloc, *name, form)?,
                next,
            })
        }
        Behaviour::Assign { .. } | Behaviour::Undef { .. } | Behaviour::Copy { .. } => {
            begun_place(alloc, behaviour, next)
        }
        Behaviour::Bind { .. } | Behaviour::If { .. } | Behaviour::While { .. } => {
            begun_place(alloc, behaviour, next)
        }
        Behaviour::Choice(_) | Behaviour::Notify { .. } | Behaviour::Solicit { .. } => {
            begun_place(alloc, behaviour, next)
        }
        Behaviour::Install(_) | Behaviour::Throw { .. } | Behaviour::Comp(_) => {
            begun_place(alloc, behaviour, next)
        }
    }
}

/// The head of a sequence starts, and the rests stay.
#[cycle(start)]
fn started_head(alloc: Global, list: &[Behaviour], next: u64) -> Result<Begun, AllocError>
    ensures { IfOk result (λ b. begun_view b ≡ spec.start_head (procs_of (map behaviour_view list.now)) next) }
{
    match list {
        [] => begun_done(alloc, next),
        [head, rest @ ..] => {
            let Begun { form, next } = started(alloc, head, next)?;
            let rest = Rest::of_copies(alloc, rest)?;
            Ok(Begun {
                form: in_sequence(alloc, form, rest)?,
                next,
            })
        }
    }
}

/// The members of a parallel have their numbers, and start in order.
#[cycle(start)]
fn started_parallel(alloc: Global, list: &[Behaviour], next: u64) -> Result<Begun, AllocError>
    ensures { IfOk result
        (λ b. begun_view b ≡ spec.around par
        (spec.start_members (procs_of (map behaviour_view list.now)) next
        (next + count_of (procs_of (map behaviour_view list.now))))) }
{
    let mut after = next.checked_add(list.len() as u64).ok_or(AllocError)?;
    let mut strands = Vec::new(alloc);
    let mut number = next;
    for behaviour in list {
        let Begun { form, next } = started(alloc, behaviour, after)?;
        strands.push(Strand { number, form })?;
        number += 1;
        after = next;
    }
    Ok(Begun {
        form: boxed(alloc, Term::Par(strands))?,
        next: after,
    })
}

/// Two behaviours start in sequence.
pub fn started_both(
    alloc: Global,
    first: &Behaviour,
    second: &Behaviour,
    next: u64,
) -> Result<Begun, AllocError>
    ensures { IfOk result
        (λ b. begun_view b ≡ spec.start (sequence
        (proc (behaviour_view first.now) (proc (behaviour_view second.now) no_procs))) next) }
{
    let Begun { form, next } = started(alloc, first, next)?;
    let rest = Rest::of_one(alloc, second)?;
    Ok(Begun {
        form: in_sequence(alloc, form, rest)?,
        next,
    })
}
