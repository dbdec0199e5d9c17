ghost use Rattle.std.specs.Prelude.{◌≡◌, None, Some, option_map, is_some, IfOk, if◌then◌else◌};
ghost use Rattle.behaviour_tree.specs.Values.{truth_of, value as value_of};
ghost use Rattle.behaviour_tree.specs.View.{behaviour_view, expr_view};
ghost use Rattle.behaviour_tree.specs.declared.words.Given.TheVariants as given;
ghost use Rattle.behaviour_tree.specs.declared.words.Given.{Given};
ghost use Rattle.session_calculus.specs.Faults as spec;
ghost use Rattle.session_calculus.specs.Terms as terms;
ghost use Rattle.session_events.specs.Seen.{seen_by, seen_in};
ghost use Rattle.session_forms.specs.View.{fault_view};

use crate::event::bare;
use crate::message::{Message, Sending, message_of};
use crate::scene::{Scene, scene_of};
use behaviour_tree::{Behaviour, Expr, standard};
use session_forms::{Fault, Installed};
use session_values::{
    Actor, Memory, binding, fault_of_assign, fault_of_copy, fault_of_undef, truth, value,
};
use std::alloc::{AllocError, Global};

/// The fault of a form that acts, where it has one.
pub fn fault_of(
    alloc: Global,
    place: &Behaviour,
    actor: Actor<'_>,
    installed: &Installed,
    memory: &Memory,
) -> Result<Option<Fault>, AllocError>
    ensures { (g : Given) → IfOk result
        (λ f. option_map fault_view f ≡ spec.fault_of (seen_by actor.entry g installed.now memory.now)
        (behaviour_view place.now)) }
{
    fault_at(alloc, place, scene_of(actor, installed), memory)
}

/// The same where an event is.
#[tactic(auto, using(crate::proofs::Faulting::effect_faults))]
pub fn fault_at(
    alloc: Global,
    place: &Behaviour,
    scene: Scene<'_>,
    memory: &Memory,
) -> Result<Option<Fault>, AllocError>
    ensures { IfOk result
        (λ f. option_map fault_view f ≡ spec.fault_of (seen_in scene.entry given.Nothing memory.now)
        (behaviour_view place.now)) }
{
    match place {
        Behaviour::Assign { path, value } => {
            let fault = fault_of_assign(alloc, path, value, memory)?;
            Ok(bare_of(alloc, fault))
        }
        Behaviour::Undef { path } => {
            let fault = fault_of_undef(alloc, path, memory)?;
            Ok(bare_of(alloc, fault))
        }
        Behaviour::Copy { path, value } => {
            let fault = fault_of_copy(alloc, path, value, memory)?;
            Ok(bare_of(alloc, fault))
        }
        Behaviour::Throw { fault, value } => Ok(Some(thrown(alloc, *fault, value, memory)?)),
        Behaviour::Bind { value, .. } => fault_of_binding(alloc, value, memory),
        Behaviour::If { test, .. } => fault_of_test(alloc, test, memory),
        Behaviour::While { test, .. } => fault_of_test(alloc, test, memory),
        Behaviour::Notify { port, op, value } => {
            let sending = Sending {
                port: *port,
                op: *op,
                value,
            };
            fault_of_message(alloc, sending, scene, memory)
        }
        Behaviour::Solicit {
            port,
            op,
            value,
            ..
        } => {
            let sending = Sending {
                port: *port,
                op: *op,
                value,
            };
            fault_of_message(alloc, sending, scene, memory)
        }
        Behaviour::Install(handlers) => {
            let fit = scene.installed.table.fits(handlers, scene.installed.scope);
            Ok(fault_unless(alloc, fit, standard::HANDLER_TOO_LARGE))
        }
        Behaviour::Nothing | Behaviour::InnerHandler | Behaviour::Choice(_) => Ok(None),
        Behaviour::Sequence(_) | Behaviour::Parallel(_) | Behaviour::Comp(_) => Ok(None),
        Behaviour::Scope { .. } | Behaviour::Block(_) => Ok(None),
    }
}

/// A fault whose value is void, where there is one.
fn bare_of(alloc: Global, name: Option<u32>) -> Option<Fault>
    ensures { option_map fault_view result ≡ option_map terms.bare name }
{
    match name {
        None => None,
        Some(name) => Some(bare(alloc, name)),
    }
}

/// A fault whose value is void, unless something holds.
fn fault_unless(alloc: Global, holds: bool, name: u32) -> Option<Fault>
    ensures { option_map fault_view result ≡ (if holds then None else Some (terms.bare name)) }
{
    if holds { None } else { Some(bare(alloc, name)) }
}

/// The fault of a throw: the one that it names, with the tree of its expression.
pub fn thrown(alloc: Global, name: u32, expr: &Expr, memory: &Memory) -> Result<Fault, AllocError>
    ensures { IfOk result
        (λ f. Some (fault_view f) ≡ spec.fault_of_throw name (value_of memory.now.store (expr_view expr.now))) }
{
    match value(alloc, expr, &memory.store)? {
        None => Ok(bare(alloc, standard::EXPR_FAULT)),
        Some(value) => Ok(Fault { name, value }),
    }
}

/// The fault of a test that is no bool.
#[tactic(auto, using(crate::proofs::Faulting::missing))]
fn fault_of_test(alloc: Global, test: &Expr, memory: &Memory) -> Result<Option<Fault>, AllocError>
    ensures { IfOk result
        (λ f. option_map fault_view f ≡ spec.fault_of_missing (truth_of memory.now.store (expr_view test.now))) }
{
    let truth = truth(alloc, test, &memory.store)?;
    Ok(fault_unless(alloc, truth.is_some(), standard::EXPR_FAULT))
}

/// The fault of a binding to nothing.
#[tactic(auto, using(crate::proofs::Faulting::missing))]
fn fault_of_binding(
    alloc: Global,
    expr: &Expr,
    memory: &Memory,
) -> Result<Option<Fault>, AllocError>
    ensures { IfOk result
        (λ f. option_map fault_view f ≡ spec.fault_of_missing (spec.binding memory.now.store (expr_view expr.now))) }
{
    let root = binding(alloc, expr, &memory.store)?;
    Ok(fault_unless(alloc, root.is_some(), standard::EXPR_FAULT))
}

/// The fault of a message, where it has one.
fn fault_of_message(
    alloc: Global,
    sending: Sending<'_>,
    scene: Scene<'_>,
    memory: &Memory,
) -> Result<Option<Fault>, AllocError>
    ensures { IfOk result
        (λ f. option_map fault_view f ≡ spec.fault_of_message (seen_in scene.entry given.Nothing memory.now)
        sending.entry.port sending.entry.op (value_of memory.now.store (expr_view sending.entry.value.now))) }
{
    match message_of(alloc, sending, scene, memory)? {
        Message::Faults(name) => Ok(Some(bare(alloc, name))),
        Message::Sends(_) => Ok(None),
    }
}
