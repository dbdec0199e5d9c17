ghost use Rattle.std.specs.Prelude.{◌≡◌};
ghost use Rattle.behaviour_tree.specs.View.{behaviour_view};
ghost use Rattle.session_calculus.specs.Ready as spec;
ghost use Rattle.session_calculus.specs.Terms as terms;
ghost use Rattle.handler_table.specs.View.{table_view};
ghost use Rattle.session_forms.specs.View.{members_view, term_view};
ghost use Rattle.session_faults.specs.Least.{first, lesser_of};

use crate::shapes::may_end;
use behaviour_tree::Behaviour;
use session_forms::{Installed, Strand, Term};

/// The least of the strands in a form that go first before a fault comes to the scope that the form is of. The form
/// runs in the strand `own`.
#[cycle(ready)]
pub fn least_ready(term: &Term, own: u64, installed: &Installed) -> Option<u64>
    ensures { result ≡ first (spec.ready installed.now.scope (table_view installed.now.table) own
        (term_view term.now)) }
{
    match term {
        Term::Place(place) => ready_place(place, own, installed),
        Term::Scope { body, state, .. } => {
            if may_end(body, state) {
                Some(own)
            } else {
                None
            }
        }
        Term::Seq { head, .. } => least_ready(head, own, installed),
        Term::Exec { body, .. } => least_ready(body, own, installed),
        Term::Par(strands) => least_among(strands, installed),
        Term::Done | Term::Thrown(_) | Term::Fail { .. } => None,
        Term::Wait(_) | Term::DeadWait(_) | Term::Prot(_) => None,
    }
}

/// The strand of a place that is to install handlers which fit.
fn ready_place(place: &Behaviour, own: u64, installed: &Installed) -> Option<u64>
    ensures { result ≡ first (spec.ready installed.now.scope (table_view installed.now.table) own
        (terms.place (behaviour_view place.now))) }
{
    match place {
        Behaviour::Install(handlers) => {
            if installed.table.fits(handlers, installed.scope) {
                Some(own)
            } else {
                None
            }
        }
        Behaviour::Nothing | Behaviour::InnerHandler | Behaviour::Block(_) => None,
        Behaviour::Assign { .. } | Behaviour::Undef { .. } | Behaviour::Copy { .. } => None,
        Behaviour::Bind { .. } | Behaviour::If { .. } | Behaviour::While { .. } => None,
        Behaviour::Choice(_) | Behaviour::Notify { .. } | Behaviour::Solicit { .. } => None,
        Behaviour::Throw { .. } | Behaviour::Comp(_) | Behaviour::Scope { .. } => None,
        Behaviour::Sequence(_) | Behaviour::Parallel(_) => None,
    }
}

/// The least of those strands in members.
#[cycle(ready)]
fn least_among(strands: &[Strand], installed: &Installed) -> Option<u64>
    ensures { result ≡ first (spec.rising
        (spec.ready_among installed.now.scope (table_view installed.now.table) (members_view strands.now))) }
{
    let mut least = None;
    for member in strands {
        let ready = least_ready(&member.form, member.number, installed);
        least = lesser(least, ready);
    }
    least
}

/// The lesser of two numbers that may be missing.
fn lesser(one: Option<u64>, other: Option<u64>) -> Option<u64>
    ensures { result ≡ lesser_of one other }
{
    match (one, other) {
        (None, other) => other,
        (one, None) => one,
        (Some(n), Some(m)) => Some(if n <= m { n } else { m }),
    }
}
