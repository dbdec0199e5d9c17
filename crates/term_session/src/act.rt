ghost use Rattle.std.specs.Prelude.{◌≡◌, IfOk};
ghost use Rattle.session_forms.specs.View.{members_view, term_view};
ghost use Rattle.term_session.specs.Turns.{seen_at, walked_view};
ghost use Rattle.term_session.specs.Walks as spec;

use crate::act_here::act_here;
use crate::turn::{Turn, Walked};
use session_faults::place_of;
use session_forms::{Installed, Strand, Term};
use session_values::Memory;
use std::alloc::{AllocError, Global};

/// Acts in a form, which runs in the strand `own`, in a turn. Where its strand has a fault or no event there all stays.
#[cycle(act)]
#[tactic(auto, using(crate::proofs::Viewed::in_parallel, crate::proofs::Acting::acts_as_alone, crate::proofs::Acting::done_scope, crate::proofs::Acting::done_exec))]
pub fn act(
    alloc: Global,
    form: &mut Box<Term>,
    own: u64,
    turn: Turn<'_>,
    installed: &mut Installed,
    memory: &mut Memory,
) -> Result<Walked, AllocError>
    ensures event { IfOk result
        (λ r. walked_view turn.entry r (term_view form.new.value) installed.new memory.new
        ≡ spec.acted_in (seen_at turn.entry installed.old memory.old) own (term_view form.old.value)) }
    ensures name { installed.new.scope ≡ installed.old.scope }
{
    match &mut **form {
        Term::Done => Ok(Walked::Stuck),
        Term::Seq { head, .. } => {
            let walked = act(alloc, head, own, turn, installed, memory)?;
            Ok(walked)
        }
        Term::Par(strands) => act_strands(alloc, strands, turn, installed, memory),
        Term::Prot(body) => {
            let walked = act(alloc, body, own, turn, installed, memory)?;
            Ok(walked)
        }
        Term::Scope {
            installed: scope,
            body,
            ..
        } => {
            if body.is_done() {
                return act_alone(alloc, form, own, turn, installed, memory);
            }
            let walked = act(alloc, body, own, turn, scope, memory)?;
            Ok(walked)
        }
        Term::Exec { body, .. } => {
            if body.is_done() {
                return act_alone(alloc, form, own, turn, installed, memory);
            }
            let walked = act(alloc, body, own, turn, installed, memory)?;
            Ok(walked)
        }
        Term::Place(_) | Term::Thrown(_) | Term::Fail { .. } => {
            Ok(act_alone(alloc, form, own, turn, installed, memory)?)
        }
        Term::Wait(_) | Term::DeadWait(_) => act_alone(alloc, form, own, turn, installed, memory),
    }
}

/// Acts in the members of a parallel.
#[cycle(act)]
fn act_strands(
    alloc: Global,
    strands: &mut Vec<Strand>,
    turn: Turn<'_>,
    installed: &mut Installed,
    memory: &mut Memory,
) -> Result<Walked, AllocError>
    ensures event { IfOk result
        (λ r. walked_view turn.entry r (members_view strands.new.items) installed.new memory.new
        ≡ spec.acted_among (seen_at turn.entry installed.old memory.old) (members_view strands.old.items)) }
    ensures name { installed.new.scope ≡ installed.old.scope }
{
    act_among(alloc, strands.as_mut_slice(), turn, installed, memory)
}

/// Acts in the first member that the strand stands in.
#[cycle(act)]
#[tactic(auto, using(crate::proofs::Viewed::in_member, crate::proofs::Viewed::none_acts))]
fn act_among(
    alloc: Global,
    strands: &mut [Strand],
    turn: Turn<'_>,
    installed: &mut Installed,
    memory: &mut Memory,
) -> Result<Walked, AllocError>
    ensures event { IfOk result
        (λ r. walked_view turn.entry r (members_view strands.new) installed.new memory.new
        ≡ spec.acted_among (seen_at turn.entry installed.old memory.old) (members_view strands.old)) }
    ensures name { installed.new.scope ≡ installed.old.scope }
{
    let Some(place) = place_of(strands, turn.actor.strand) else {
        return Ok(Walked::Stuck);
    };
    let own = strands[place].number;
    Ok(act(
        alloc,
        &mut strands[place].form,
        own,
        turn,
        installed,
        memory,
    )?)
}

/// Acts in a form that acts itself, where the strand is its own.
fn act_alone(
    alloc: Global,
    form: &mut Box<Term>,
    own: u64,
    turn: Turn<'_>,
    installed: &mut Installed,
    memory: &mut Memory,
) -> Result<Walked, AllocError>
    ensures event { IfOk result
        (λ r. walked_view turn.entry r (term_view form.new.value) installed.new memory.new
        ≡ spec.acts_alone (seen_at turn.entry installed.old memory.old) own (term_view form.old.value)) }
    ensures name { installed.new.scope ≡ installed.old.scope }
{
    if turn.actor.strand != own {
        return Ok(Walked::Stuck);
    }
    act_here(alloc, form, turn, installed, memory)
}
