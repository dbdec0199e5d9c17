ghost use Rattle.std.specs.Prelude.{◌≡◌, true, None, IfOk};
ghost use Rattle.behaviour_tree.specs.View.{behaviour_view};
ghost use Rattle.behaviour_tree.specs.declared.words.Given.TheVariants as given;
ghost use Rattle.session_calculus.specs.Faults.{fault_of as spec_fault};
ghost use Rattle.session_events.specs.Came.{acted_in, acted_view, came, comes_to};
ghost use Rattle.session_events.specs.Gifts.{leaves_handlers, wants_nothing};
ghost use Rattle.session_events.specs.Seen.{seen_by, seen_in};

use crate::bind::bound;
use crate::choice::chosen;
use crate::event::{Acted, shared};
use crate::fault::{fault_at, thrown};
use crate::handlers::{compensated, installed as put_over};
use crate::local::{assigned, copied, repeated, taken_away, tested};
use crate::message::Sending;
use crate::scene::{Scene, scene_of};
use crate::send::{notified, solicited};
use behaviour_tree::{Behaviour, Given};
use session_forms::Installed;
use session_values::{Actor, Memory};
use std::alloc::{AllocError, Global};
use std::sync::Arc;

/// Acts at a place, for what the office gave. Where it has a fault or no event all stays as it is.
pub fn acted(
    alloc: Global,
    place: &Behaviour,
    given: &Given,
    actor: Actor<'_>,
    installed: &mut Installed,
    memory: &mut Memory,
) -> Result<Acted, AllocError>
    ensures event { IfOk result
        (λ r. acted_view actor.entry given.now r installed.new memory.new
        ≡ comes_to (seen_by actor.entry given.now installed.old memory.old) (behaviour_view place.now)) }
    ensures name { installed.new.scope ≡ installed.old.scope }
{
    match place {
        Behaviour::Choice(list) => {
            let scene = scene_of(actor, installed);
            chosen(alloc, list, given, scene, memory)
        }
        Behaviour::Bind { variable, value } => {
            let scene = scene_of(actor, installed);
            bound(alloc, *variable, value, given, scene, memory)
        }
        Behaviour::Install(_) | Behaviour::Comp(_) => {
            acted_or_looked(alloc, place, given, actor, installed, memory)
        }
        Behaviour::Assign { .. } | Behaviour::Undef { .. } | Behaviour::Copy { .. } => {
            acted_or_looked(alloc, place, given, actor, installed, memory)
        }
        Behaviour::If { .. } | Behaviour::While { .. } | Behaviour::Throw { .. } => {
            acted_or_looked(alloc, place, given, actor, installed, memory)
        }
        Behaviour::Notify { .. } | Behaviour::Solicit { .. } => {
            acted_or_looked(alloc, place, given, actor, installed, memory)
        }
        Behaviour::Nothing | Behaviour::InnerHandler => Ok(Acted::Stuck),
        Behaviour::Sequence(_) | Behaviour::Parallel(_) => Ok(Acted::Stuck),
        Behaviour::Scope { .. } | Behaviour::Block(_) => Ok(Acted::Stuck),
    }
}

/// Acts at a place for whose event the office gives nothing; for a gift it has only its fault.
#[tactic(auto, using(crate::proofs::Ungiven::acts_none))]
fn acted_or_looked(
    alloc: Global,
    place: &Behaviour,
    given: &Given,
    actor: Actor<'_>,
    installed: &mut Installed,
    memory: &mut Memory,
) -> Result<Acted, AllocError>
    requires { wants_nothing (behaviour_view place.now) ≡ true }
    ensures event { IfOk result
        (λ r. acted_view actor.entry given.now r installed.new memory.new
        ≡ comes_to (seen_by actor.entry given.now installed.old memory.old) (behaviour_view place.now)) }
    ensures name { installed.new.scope ≡ installed.old.scope }
{
    if matches!(given, Given::Nothing) {
        acted_alone(alloc, place, actor, installed, memory)
    } else {
        looked(alloc, place, given, scene_of(actor, installed), memory)
    }
}

/// Acts at a place for which the office gives nothing.
fn acted_alone(
    alloc: Global,
    place: &Behaviour,
    actor: Actor<'_>,
    installed: &mut Installed,
    memory: &mut Memory,
) -> Result<Acted, AllocError>
    requires { wants_nothing (behaviour_view place.now) ≡ true }
    ensures event { IfOk result
        (λ r. acted_view actor.entry given.Nothing r installed.new memory.new
        ≡ comes_to (seen_by actor.entry given.Nothing installed.old memory.old) (behaviour_view place.now)) }
    ensures name { installed.new.scope ≡ installed.old.scope }
{
    match place {
        Behaviour::Install(handlers) => put_over(alloc, handlers, actor, installed),
        Behaviour::Comp(scope) => {
            Ok(Acted::Moved(compensated(alloc, *scope, actor, installed, memory)?))
        }
        Behaviour::Nothing | Behaviour::InnerHandler | Behaviour::Choice(_) => Ok(Acted::Stuck),
        Behaviour::Sequence(_) | Behaviour::Parallel(_) | Behaviour::Bind { .. } => {
            Ok(Acted::Stuck)
        }
        Behaviour::Scope { .. } | Behaviour::Block(_) => Ok(Acted::Stuck),
        Behaviour::Assign { .. } | Behaviour::Undef { .. } | Behaviour::Copy { .. } => {
            acted_in_place(alloc, place, scene_of(actor, installed), memory)
        }
        Behaviour::If { .. } | Behaviour::While { .. } | Behaviour::Throw { .. } => {
            acted_in_place(alloc, place, scene_of(actor, installed), memory)
        }
        Behaviour::Notify { .. } | Behaviour::Solicit { .. } => {
            acted_in_place(alloc, place, scene_of(actor, installed), memory)
        }
    }
}

/// Acts at a place for which the office gives nothing, and whose event leaves the handlers of the scope.
fn acted_in_place(
    alloc: Global,
    place: &Behaviour,
    scene: Scene<'_>,
    memory: &mut Memory,
) -> Result<Acted, AllocError>
    requires { leaves_handlers (behaviour_view place.now) ≡ true }
    ensures { IfOk result
        (λ r. acted_in scene.entry given.Nothing r memory.new
        ≡ comes_to (seen_in scene.entry given.Nothing memory.old) (behaviour_view place.now)) }
{
    match place {
        Behaviour::Assign { path, value } => assigned(alloc, path, value, scene, memory),
        Behaviour::Undef { path } => taken_away(alloc, path, scene, memory),
        Behaviour::Copy { path, value } => copied(alloc, path, value, scene, memory),
        Behaviour::If { test, then, other } => tested(alloc, test, then, other, scene, memory),
        Behaviour::While { test, body } => repeated(alloc, test, body, place, scene, memory),
        Behaviour::Notify { port, op, value } => {
            let sending = Sending {
                port: *port,
                op: *op,
                value,
            };
            notified(alloc, sending, scene, memory)
        }
        Behaviour::Solicit {
            port,
            op,
            value,
            target,
            handlers,
        } => {
            let sending = Sending {
                port: *port,
                op: *op,
                value,
            };
            solicited(alloc, sending, target, handlers, scene, memory)
        }
        Behaviour::Throw { fault, value } => {
            let fault = thrown(alloc, *fault, value, memory)?;
            Ok(Acted::Faulted(Arc::new(alloc, fault)?))
        }
        Behaviour::Install(_) | Behaviour::Comp(_) => Ok(Acted::Stuck),
        Behaviour::Nothing | Behaviour::InnerHandler | Behaviour::Choice(_) => Ok(Acted::Stuck),
        Behaviour::Sequence(_) | Behaviour::Parallel(_) | Behaviour::Bind { .. } => {
            Ok(Acted::Stuck)
        }
        Behaviour::Scope { .. } | Behaviour::Block(_) => Ok(Acted::Stuck),
    }
}

/// Looks whether a place has a fault, where it has no event for what the office gave.
#[tactic(auto, using(crate::proofs::Giftless::fault_for))]
fn looked(
    alloc: Global,
    place: &Behaviour,
    given: &Given,
    scene: Scene<'_>,
    memory: &Memory,
) -> Result<Acted, AllocError>
    ensures { IfOk result
        (λ r. acted_in scene.entry given.now r memory.now
        ≡ came (seen_in scene.entry given.now memory.now)
        (spec_fault (seen_in scene.entry given.now memory.now) (behaviour_view place.now)) None) }
{
    match fault_at(alloc, place, scene, memory)? {
        None => Ok(Acted::Stuck),
        Some(fault) => Ok(Acted::Faulted(Arc::new(alloc, fault)?)),
    }
}
