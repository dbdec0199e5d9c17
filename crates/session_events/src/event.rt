ghost use Rattle.std.specs.Prelude.{◌≡◌, IfOk};
ghost use Rattle.std.specs.Arc.{arc_value};
ghost use Rattle.session_calculus.specs.Moves as moves;
ghost use Rattle.session_calculus.specs.Terms as terms;
ghost use Rattle.session_forms.specs.View.{fault_view, term_view};

use behaviour_tree::{Event, Kind, Need};
use jolie_trees::Tree;
use session_forms::{Fault, Term, boxed};
use session_values::Actor;
use std::alloc::{AllocError, Global};
use std::sync::Arc;

/// An event that came: the form that stands there now, what is seen of the event, and what it asks of the office.
#[derive(Drop)]
pub struct Moved {
    pub form: Box<Term>,
    pub event: Event,
    pub need: Box<Need>,
}

/// What acting at a place came to: it has no event for what the office gave, or it has a fault, and all stays; or its
/// event came.
#[derive(Drop)]
pub enum Acted {
    Stuck,
    Faulted(Arc<Fault>),
    Moved(Moved),
}

/// An event that came.
pub fn event_came(
    alloc: Global,
    form: Box<Term>,
    event: Event,
    need: Need,
) -> Result<Moved, AllocError>
    ensures form { IfOk result (λ m. m.form.value ≡ form.value) }
    ensures event { IfOk result (λ m. m.event ≡ event) }
    ensures need { IfOk result (λ m. m.need.value ≡ need) }
{
    let need = Box::new(alloc, need)?;
    Ok(Moved { form, event, need })
}

/// An event of the strand that acts.
pub fn event_of(actor: Actor<'_>, kind: Kind, number: u32, place: u32, fault: u32) -> Event
    ensures { result ≡ record {
      strand = actor.entry.strand;
      kind = kind;
      number = number;
      place = place;
      fault = fault;
    } }
{
    Event {
        strand: actor.strand,
        kind,
        number,
        place,
        fault,
    }
}

/// A fault whose value is void.
pub fn bare(alloc: Global, name: u32) -> Fault
    ensures { fault_view result ≡ terms.bare name }
{
    let value = Tree::void(alloc);
    Fault { name, value }
}

/// The same, to be shared.
pub fn shared(alloc: Global, name: u32) -> Result<Arc<Fault>, AllocError>
    ensures { IfOk result (λ f. fault_view (arc_value f) ≡ terms.bare name) }
{
    Ok(Arc::new(alloc, bare(alloc, name))?)
}

/// A fault whose value is void, where a behaviour would stand.
pub fn instead(alloc: Global, name: u32) -> Result<Box<Term>, AllocError>
    ensures { IfOk result (λ t. term_view t.value ≡ moves.instead name) }
{
    let fault = shared(alloc, name)?;
    boxed(alloc, Term::Thrown(fault))
}
