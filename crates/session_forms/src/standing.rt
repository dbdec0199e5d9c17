ghost use Rattle.std.specs.Prelude.{◌≡◌, ◌↔◌, ℕ, ◌++◌, true, Contains, IfOk};
ghost use Rattle.session_calculus.specs.Terms.{stands_in};
ghost use Rattle.session_forms.specs.Standing as spec;
ghost use Rattle.session_forms.specs.View.{members_view, term_view};

use crate::term::{Strand, Term};
use behaviour_tree::Strands;
use sqlite_items::Items;
use std::alloc::{AllocError, Global};

/// The strands of a form that runs in the strand `own`: that one first, then the members of its parallels.
pub fn strands_of(alloc: Global, term: &Term, own: u64) -> Result<Strands, AllocError>
    ensures exact { IfOk result (λ strands. strands ≡ spec.strands_in own (term_view term.now)) }
    ensures all { IfOk result
        (λ strands. (n : ℕ) → (stands_in n own (term_view term.now) ≡ true) ↔ Contains strands n) }
{
    let mut strands = Vec::new(alloc);
    strands.push(own)?;
    add_within(term, &mut strands)?;
    Ok(Items::from_vec(strands))
}

/// Adds the members of the parallels in a form.
#[cycle(standing)]
fn add_within(term: &Term, into: &mut Vec<u64>) -> Result<(), AllocError>
    ensures { IfOk result (λ _. into.new.items ≡ into.old.items ++ spec.strands_within (term_view term.now)) }
{
    match term {
        Term::Seq { head, .. } => add_within(head, into),
        Term::Par(strands) => add_among(strands, into),
        Term::Scope { body, .. } => add_within(body, into),
        Term::Exec { body, .. } => add_within(body, into),
        Term::Fail { body, .. } => add_within(body, into),
        Term::Prot(body) => add_within(body, into),
        Term::Done | Term::Place(_) | Term::Thrown(_) => Ok(()),
        Term::Wait(_) | Term::DeadWait(_) => Ok(()),
    }
}

/// Adds members, and what stands in them.
#[cycle(standing)]
fn add_among(strands: &[Strand], into: &mut Vec<u64>) -> Result<(), AllocError>
    ensures { IfOk result (λ _. into.new.items ≡ into.old.items ++ spec.strands_among (members_view strands.now)) }
{
    for member in strands {
        into.push(member.number)?;
        add_within(&member.form, into)?;
    }
    Ok(())
}
