ghost use Rattle.std.specs.Prelude.{◌≡◌, IfOk};
ghost use Rattle.std.specs.Arc.{arc_value};
ghost use Rattle.session_calculus.specs.Kill as spec;
ghost use Rattle.session_forms.specs.View.{fault_view, members_view, term_view};

use crate::shapes::{end_early, fail, stop_waiting, terminates};
use session_forms::{Fault, Strand, Term, finish, protect, unwrap};
use std::alloc::{AllocError, Global};
use std::sync::Arc;

/// Leaves what is left of a form that a fault beside it ends.
#[cycle(kill)]
pub fn kill(alloc: Global, form: &mut Box<Term>, fault: &Arc<Fault>) -> Result<(), AllocError>
    ensures { IfOk result
        (λ _. term_view form.new.value ≡ spec.kill (fault_view (arc_value fault.now)) (term_view form.old.value)) }
{
    match &mut **form {
        Term::Seq { head, .. } => {
            kill(alloc, head, fault)?;
            unwrap(form);
            Ok(())
        }
        Term::Par(strands) => kill_strands(alloc, strands, fault),
        Term::Scope { body, state, .. } => {
            if !terminates(body, state) {
                return protect(alloc, form);
            }
            kill(alloc, body, fault)?;
            end_early(state);
            protect(alloc, form)
        }
        Term::Exec { body, .. } => {
            kill(alloc, body, fault)?;
            fail(form, fault)?;
            protect(alloc, form)
        }
        Term::Wait(_) => {
            stop_waiting(form);
            protect(alloc, form)
        }
        Term::Fail { .. } => protect(alloc, form),
        Term::DeadWait(_) => protect(alloc, form),
        Term::Prot(_) => Ok(()),
        Term::Done | Term::Place(_) | Term::Thrown(_) => {
            finish(form);
            Ok(())
        }
    }
}

/// Kills the members of a parallel.
#[cycle(kill)]
fn kill_strands(
    alloc: Global,
    strands: &mut Vec<Strand>,
    fault: &Arc<Fault>,
) -> Result<(), AllocError>
    ensures { IfOk result
        (λ _. members_view strands.new.items
        ≡ spec.kill_members (fault_view (arc_value fault.now)) (members_view strands.old.items)) }
{
    kill_members(alloc, strands.as_mut_slice(), fault)
}

/// Kills members.
#[cycle(kill)]
pub fn kill_members(
    alloc: Global,
    strands: &mut [Strand],
    fault: &Arc<Fault>,
) -> Result<(), AllocError>
    ensures { IfOk result
        (λ _. members_view strands.new ≡ spec.kill_members (fault_view (arc_value fault.now))
        (members_view strands.old)) }
{
    for strand in strands.iter_mut() {
        kill(alloc, &mut strand.form, fault)?;
    }
    Ok(())
}
