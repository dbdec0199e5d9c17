ghost use Rattle.std.specs.Prelude.{◌≡◌};
ghost use Rattle.session_forms.specs.declared.installed.Installed.{Installed as Around};
ghost use Rattle.session_values.specs.declared.memory.Memory.{Memory as Held};
ghost use Rattle.term_session.specs.Turns.{came_to, event_at, walked_view};
ghost use Rattle.session_forms.specs.View.{term_view};
ghost use Rattle.term_session.specs.declared.turn.Turn.{Turn as Acting};

use behaviour_tree::{Event, Given, Need};
use session_events::{Acted, Moved};
use session_forms::{Fault, Term};
use session_values::Actor;
use std::sync::Arc;

/// A turn of a strand: who acts, and what the office gave for the event.
#[derive(Clone, Copy)]
pub struct Turn<'a> {
    pub actor: Actor<'a>,
    pub given: &'a Given,
}

/// What a turn came to in a form: its strand has no event there for what the office gave, or it has a fault, and all
/// stays; or its event came.
#[derive(Drop)]
pub enum Walked {
    Stuck,
    Faulted(Arc<Fault>),
    Went { event: Event, need: Box<Need> },
}

impl Turn<'_> {
    ghost use Rattle.std.specs.Prelude.{◌≡◌, IsTrue, ◌↔◌};
    ghost use Rattle.behaviour_tree.specs.declared.words.Given.TheVariants as given;

    /// Whether the office gave nothing.
    pub fn gives_nothing(&self) -> bool
        ensures { IsTrue result ↔ (self.now.given.now ≡ given.Nothing) }
    {
        match self.given {
            Given::Nothing => true,
            Given::Mail { .. } | Given::Answer { .. } => false,
            Given::Bound | Given::Held(_) | Given::Fixed => false,
        }
    }
}

/// The event of a form, if it came, leaves what stands there then.
pub fn went(form: &mut Box<Term>, moved: Option<Moved>) -> Walked
    ensures { (t : Acting) (h : Around) (k : Held)
        → walked_view t result (term_view form.new.value) h k ≡ event_at t moved (term_view form.old.value) h k }
{
    match moved {
        None => Walked::Stuck,
        Some(
            Moved {
                form: left,
                event,
                need,
            },
        ) => {
            *form = left;
            Walked::Went { event, need }
        }
    }
}

/// The same of what acting at a place came to.
pub fn came(form: &mut Box<Term>, acted: Acted) -> Walked
    ensures { (t : Acting) (h : Around) (k : Held)
        → walked_view t result (term_view form.new.value) h k ≡ came_to t acted (term_view form.old.value) h k }
{
    match acted {
        Acted::Stuck => Walked::Stuck,
        Acted::Faulted(fault) => Walked::Faulted(fault),
        Acted::Moved(moved) => went(form, Some(moved)),
    }
}
