//! What can be told of the event of a strand before anything is evaluated.

ghost use Rattle.std.specs.Prelude.{◌≡◌, true, is_some};
ghost use Rattle.behaviour_tree.specs.View.{behaviour_view};
ghost use Rattle.session_calculus.specs.Faults as faults;
ghost use Rattle.session_calculus.specs.Moves.{Seen};
ghost use Rattle.session_events.specs.Asked as asked;
ghost use Rattle.session_forms.specs.View.{term_view};
ghost use Rattle.session_faults.specs.Decisions.{decision_view};
ghost use Rattle.term_session.specs.Asks.{asked_by_throw};
ghost use Rattle.term_session.specs.Configs.{config_view};
ghost use Rattle.term_session.specs.Foretold.{Foresees, Foretells, IsRaised, is_so};
ghost use Rattle.term_session.specs.Walks.{looked};

use crate::config::Config;
use behaviour_tree::{Behaviour, standard};
use session_faults::{Decision, decided};
use session_forms::Term;

/// What a glance tells of the event of a strand: nothing, that it asks something, or that it changes the store and asks
/// nothing.
#[derive(Clone, Copy, Debug, PartialEq, Eq)]
pub enum Glance {
    Unknown,
    Asks,
    Stores,
}

/// What is told of the event of a strand of a session. A change of the store may have a fault instead, which asks
/// nothing either where it is raised.
#[tactic(auto, using(crate::proofs::Foretelling::untold))]
pub fn foretold(config: &Config, strand: u64) -> Glance
    ensures { Foretells result (config_view config.now) strand }
{
    if config.ended || config.is_finished() {
        return Glance::Unknown;
    }
    let form = &*config.form;
    match glance_in(form, 0, strand) {
        Glance::Unknown => Glance::Unknown,
        Glance::Asks => Glance::Asks,
        Glance::Stores => {
            if is_raised(form, strand, standard::EXPR_FAULT)
                && is_raised(form, strand, standard::STORE_TOO_LARGE)
            {
                return Glance::Stores;
            }
            Glance::Unknown
        }
    }
}

/// Glances at a form, which runs in the strand `own`, for the strand that acts. It looks into no parallel.
#[tactic(auto, using(crate::proofs::Foretelling::unknown, crate::proofs::Foretelling::in_head, crate::proofs::Foretelling::in_prot, crate::proofs::Foretelling::answers_now, crate::proofs::Foretelling::at_place))]
fn glance_in(term: &Term, own: u64, strand: u64) -> Glance
    ensures { Foresees result strand own (term_view term.now) }
{
    match term {
        Term::Seq { head, .. } => glance_in(head, own, strand),
        Term::Prot(body) => glance_in(body, own, strand),
        Term::Scope { body, .. } => glance_in(body, own, strand),
        Term::Exec { body, .. } => {
            if body.is_done() && strand == own {
                return Glance::Asks;
            }
            glance_in(body, own, strand)
        }
        Term::Place(place) => {
            if strand == own {
                return glance_at(place);
            }
            Glance::Unknown
        }
        Term::Done | Term::Thrown(_) | Term::Par(_) | Term::Fail { .. } => Glance::Unknown,
        Term::Wait(_) | Term::DeadWait(_) => Glance::Unknown,
    }
}

/// Glances at a place.
#[tactic(auto, using(crate::proofs::Foretelling::assigns, crate::proofs::Foretelling::copies, crate::proofs::Foretelling::takes_away))]
fn glance_at(place: &Behaviour) -> Glance
    ensures { (s : Seen) → is_so result (looked (faults.fault_of s (behaviour_view place.now))
        (asked.asked s (behaviour_view place.now))) ≡ true }
{
    match place {
        Behaviour::Assign { .. } | Behaviour::Undef { .. } | Behaviour::Copy { .. } =>
            Glance::Stores,
        _ => Glance::Unknown,
    }
}

/// Whether a fault of a strand is raised, whatever its value: a scope keeps it, or it goes above all of them.
fn is_raised(form: &Term, strand: u64, fault: u32) -> bool
    ensures { result ≡ true → IsRaised strand fault (term_view form.now) }
{
    goes_on(decided(form, strand, fault, 0))
}

/// Whether a fault goes on, by where it goes.
fn goes_on(decision: Decision) -> bool
    ensures { result ≡ is_some (asked_by_throw (decision_view decision)) }
{
    match decision {
        Decision::Up | Decision::Caught(_) | Decision::Ended(_) => true,
        Decision::Blocked(_) | Decision::Absent => false,
    }
}
