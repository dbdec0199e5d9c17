ghost use Rattle.std.specs.Prelude.{◌≡◌, option_map, IfOk};
ghost use Rattle.behaviour_tree.specs.Data as plain;
ghost use Rattle.behaviour_tree.specs.View.{expr_view};
ghost use Rattle.session_events.specs.Came.{acted_in, comes_to};
ghost use Rattle.session_events.specs.Goes.{bound_form};
ghost use Rattle.session_events.specs.Seen.{seen_in};
ghost use Rattle.session_forms.specs.View.{term_view};

use crate::event::{Acted, event_came, event_of, instead, shared};
use crate::scene::Scene;
use behaviour_tree::{Expr, Given, Kind, Need, standard};
use session_forms::{Term, boxed};
use session_values::{Memory, binding};
use std::alloc::{AllocError, Global};

/// A variable is bound: it is written now, another session has the key, or it was written before.
#[tactic(auto, using(crate::proofs::Binding::binds_by))]
pub fn bound(
    alloc: Global,
    variable: u32,
    expr: &Expr,
    given: &Given,
    scene: Scene<'_>,
    memory: &Memory,
) -> Result<Acted, AllocError>
    ensures { IfOk result
        (λ r. acted_in scene.entry given.now r memory.now
        ≡ comes_to (seen_in scene.entry given.now memory.now) (plain.bind variable (expr_view expr.now))) }
{
    let Some(value) = binding(alloc, expr, &memory.store)? else {
        return Ok(Acted::Faulted(shared(alloc, standard::EXPR_FAULT)?));
    };
    match form_of_bound(alloc, given)? {
        None => Ok(Acted::Stuck),
        Some(form) => {
            let event = event_of(scene.actor, Kind::Bind, 0, 0, 0);
            let need = Need::Bind { variable, value };
            Ok(Acted::Moved(event_came(alloc, form, event, need)?))
        }
    }
}

/// What stands where a variable was to be bound, none where the office gave nothing of the kind.
fn form_of_bound(alloc: Global, given: &Given) -> Result<Option<Box<Term>>, AllocError>
    ensures { IfOk result (λ f. option_map (λ t. term_view t.value) f ≡ bound_form given.now) }
{
    match given {
        Given::Bound => Ok(Some(boxed(alloc, Term::Done)?)),
        Given::Held(_) => Ok(Some(instead(alloc, standard::CORRELATION_ERROR)?)),
        Given::Fixed => Ok(Some(instead(alloc, standard::CORRELATION_ERROR)?)),
        Given::Nothing | Given::Mail { .. } | Given::Answer { .. } => Ok(None),
    }
}
