ghost use Rattle.std.specs.Prelude.{◌≡◌, ◌+◌, ◌<◌, if◌then◌else◌, nat_eq, IfOk, drop, length, take, slice_index_or};
ghost use Rattle.std.specs.Arc.{arc_value};
ghost use Rattle.std.specs.Option.{is_some};
ghost use Rattle.jolie_trees.specs.Data.{Tree};
ghost use Rattle.session_calculus.specs.Kill.{kill_members as killed_members};
ghost use Rattle.session_calculus.specs.Tables.{entry};
ghost use Rattle.session_calculus.specs.Terms.{Term as Plain, strand as member};
ghost use Rattle.session_calculus.specs.Throw as spec;
ghost use Rattle.handler_table.specs.View.{table_view};
ghost use Rattle.session_forms.specs.View.{fault_view, members_view, state_view, term_view};
ghost use Rattle.session_forms.specs.declared.term.Strand.{Strand as Member};
ghost use Rattle.session_faults.specs.Decisions.{arrived, carried_by, decided as decided_by, decision_view};
ghost use Rattle.session_faults.specs.Places.{joined};

use crate::decision::Decision;
use crate::kills::kill_members;
use crate::places::place_of;
use crate::ready::least_ready;
use crate::shapes::{catch, fade, fail};
use session_forms::{Fault, Installed, ScopeState, Strand, Term, finish, protect, unwrap};
use std::alloc::{AllocError, Global};
use std::sync::Arc;

/// Whether a scope has a handler for a fault.
fn handles(installed: &Installed, fault: u32) -> bool
    ensures { result ≡ is_some (entry fault (table_view installed.now.table).faults) }
{
    installed.table.fault(fault).is_some()
}

/// A fault comes to the place of a strand.
fn at_place(strand: u64, own: u64) -> Decision
    ensures { decision_view result ≡ (if nat_eq strand own then spec.up tt else spec.absent) }
{
    if strand == own {
        Decision::Up
    } else {
        Decision::Absent
    }
}

/// A fault comes to a scope from its body, in which no strand is ready.
fn arrive(alloc: Global, form: &mut Box<Term>, fault: &Arc<Fault>) -> Result<Decision, AllocError>
    ensures { IfOk result
        (λ d. carried_by d (term_view form.new.value)
        ≡ arrived (fault_view (arc_value fault.now)) (term_view form.old.value)) }
{
    match &mut **form {
        Term::Scope {
            installed,
            state,
            ..
        } => match state {
            ScopeState::Live => {
                let scope = installed.scope;
                if handles(installed, fault.name) {
                    catch(state, fault)?;
                    return Ok(Decision::Caught(scope));
                }
                fade(state);
                protect(alloc, form)?;
                Ok(Decision::Up)
            }
            ScopeState::Last => {
                let scope = installed.scope;
                fade(state);
                Ok(Decision::Ended(scope))
            }
            ScopeState::Caught(_) | ScopeState::Term | ScopeState::Zombie => Ok(Decision::Absent),
        },
        Term::Done | Term::Place(_) | Term::Thrown(_) | Term::Seq { .. } | Term::Par(_) => {
            Ok(Decision::Absent)
        }
        Term::Exec { .. } | Term::Fail { .. } | Term::Wait(_) => Ok(Decision::Absent),
        Term::DeadWait(_) | Term::Prot(_) => Ok(Decision::Absent),
    }
}

/// Where the fault of a strand goes from a form, which runs in the strand `own`.
#[cycle(decided)]
pub fn decided(term: &Term, strand: u64, fault: u32, own: u64) -> Decision
    ensures { (value : Tree) → decision_view result
        ≡ decided_by (spec.throw strand (record { name = fault; value = value }) own (term_view term.now)) }
{
    match term {
        Term::Place(_) => at_place(strand, own),
        Term::Thrown(_) => at_place(strand, own),
        Term::Seq { head, .. } => decided(head, strand, fault, own),
        Term::Par(strands) => decided_among(strands, strand, fault),
        Term::Scope {
            installed,
            body,
            state,
        } => {
            let decision = decided(body, strand, fault, own);
            if !decision.is_up() {
                return decision;
            }
            if let Some(ready) = least_ready(body, own, installed) {
                return Decision::Blocked(ready);
            }
            at_scope(installed, state, fault)
        }
        Term::Exec { body, .. } => decided(body, strand, fault, own),
        Term::Prot(body) => decided(body, strand, fault, own),
        Term::Done | Term::Fail { .. } | Term::Wait(_) | Term::DeadWait(_) => Decision::Absent,
    }
}

/// Where the fault goes from the members of a parallel.
#[cycle(decided)]
fn decided_among(strands: &[Strand], strand: u64, fault: u32) -> Decision
    ensures { (value : Tree) → decision_view result
        ≡ decided_by (spec.throw_among strand (record { name = fault; value = value }) (members_view strands.now)) }
{
    match place_of(strands, strand) {
        None => Decision::Absent,
        Some(place) => {
            let member = &strands[place];
            decided(&member.form, strand, fault, member.number)
        }
    }
}

/// Where a fault goes that comes to a scope from its body, in which no strand is ready.
fn at_scope(installed: &Installed, state: &ScopeState, fault: u32) -> Decision
    ensures { (value : Tree) (left : Plain)
        → decision_view result ≡ decided_by
        (spec.at_scope installed.now.scope (table_view installed.now.table) (state_view state.now)
        (record { name = fault; value = value }) left) }
{
    match state {
        ScopeState::Live => {
            if handles(installed, fault) {
                Decision::Caught(installed.scope)
            } else {
                Decision::Up
            }
        }
        ScopeState::Last => Decision::Ended(installed.scope),
        ScopeState::Caught(_) | ScopeState::Term | ScopeState::Zombie => Decision::Absent,
    }
}

/// Carries the fault of a strand upward in a form, which runs in the strand `own`. Where it is blocked, or its strand
/// has no place there, the form is not to be used any more.
#[cycle(carry)]
pub fn carry(
    alloc: Global,
    form: &mut Box<Term>,
    strand: u64,
    fault: &Arc<Fault>,
    own: u64,
) -> Result<Decision, AllocError>
    ensures { IfOk result
        (λ d. carried_by d (term_view form.new.value)
        ≡ spec.throw strand (fault_view (arc_value fault.now)) own (term_view form.old.value)) }
{
    match &mut **form {
        Term::Place(_) | Term::Thrown(_) => {
            if strand != own {
                return Ok(Decision::Absent);
            }
            finish(form);
            Ok(Decision::Up)
        }
        Term::Seq { head, .. } => {
            let decision = carry(alloc, head, strand, fault, own)?;
            if decision.is_up() {
                unwrap(form);
                return Ok(Decision::Up);
            }
            Ok(decision)
        }
        Term::Par(strands) => carry_strands(alloc, strands, strand, fault),
        Term::Scope {
            installed,
            body,
            ..
        } => {
            let ready = least_ready(body, own, installed);
            let decision = carry(alloc, body, strand, fault, own)?;
            if !decision.is_up() {
                return Ok(decision);
            }
            if let Some(ready) = ready {
                return Ok(Decision::Blocked(ready));
            }
            arrive(alloc, form, fault)
        }
        Term::Exec { body, .. } => {
            let decision = carry(alloc, body, strand, fault, own)?;
            if decision.is_up() {
                fail(form, fault)?;
                protect(alloc, form)?;
                return Ok(Decision::Up);
            }
            Ok(decision)
        }
        Term::Prot(body) => carry(alloc, body, strand, fault, own),
        Term::Done | Term::Fail { .. } | Term::Wait(_) | Term::DeadWait(_) => Ok(Decision::Absent),
    }
}

/// Carries the fault upward in the members of a parallel.
#[cycle(carry)]
fn carry_strands(
    alloc: Global,
    strands: &mut Vec<Strand>,
    strand: u64,
    fault: &Arc<Fault>,
) -> Result<Decision, AllocError>
    ensures { IfOk result
        (λ d. carried_by d (members_view strands.new.items)
        ≡ spec.throw_among strand (fault_view (arc_value fault.now)) (members_view strands.old.items)) }
{
    carry_among(alloc, strands.as_mut_slice(), strand, fault)
}

/// Carries the fault upward in members: where it goes on, the others are killed.
#[cycle(carry)]
fn carry_among(
    alloc: Global,
    strands: &mut [Strand],
    strand: u64,
    fault: &Arc<Fault>,
) -> Result<Decision, AllocError>
    ensures { IfOk result
        (λ d. carried_by d (members_view strands.new)
        ≡ spec.throw_among strand (fault_view (arc_value fault.now)) (members_view strands.old)) }
{
    let Some(place) = place_of(strands, strand) else {
        return Ok(Decision::Absent);
    };
    let own = strands[place].number;
    let decision = carry(alloc, &mut strands[place].form, strand, fault, own)?;
    if decision.is_up() {
        kill_others(alloc, strands, place, fault)?;
        return Ok(Decision::Up);
    }
    Ok(decision)
}

/// Kills all members but the one at a place.
fn kill_others(
    alloc: Global,
    strands: &mut [Strand],
    place: usize,
    fault: &Arc<Fault>,
) -> Result<(), AllocError>
    requires { place < length strands.old }
    ensures { let f = fault_view (arc_value fault.now) in IfOk result
        (λ _. (x : Member) → x ≡ slice_index_or strands.old place x
        → members_view strands.new ≡ joined (killed_members f (members_view (take place strands.old)))
        (member x.number (term_view x.form.value) (killed_members f (members_view (drop (place + 1) strands.old))))) }
{
    kill_members(alloc, &mut strands[..place], fault)?;
    kill_members(alloc, &mut strands[place + 1..], fault)?;
    Ok(())
}
