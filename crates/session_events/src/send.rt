ghost use Rattle.std.specs.Prelude.{◌≡◌, option_map, suc, IfOk};
ghost use Rattle.behaviour_tree.specs.Data as plain;
ghost use Rattle.behaviour_tree.specs.View.{expr_view, handlers_view, path_view};
ghost use Rattle.behaviour_tree.specs.declared.words.Given.TheVariants as given;
ghost use Rattle.session_calculus.specs.Terms as terms;
ghost use Rattle.session_events.specs.Came.{acted_in, comes_to};
ghost use Rattle.session_events.specs.Seen.{seen_in};
ghost use Rattle.session_forms.specs.View.{term_view};

use crate::event::{Acted, event_came, event_of, shared};
use crate::message::{Message, Sending, message_of};
use crate::scene::Scene;
use behaviour_tree::{Handlers, Kind, Need, PathExpr};
use session_forms::{Call, Term, boxed};
use session_values::Memory;
use std::alloc::{AllocError, Global};

/// A one-way message is sent.
pub fn notified(
    alloc: Global,
    sending: Sending<'_>,
    scene: Scene<'_>,
    memory: &mut Memory,
) -> Result<Acted, AllocError>
    ensures { IfOk result
        (λ r. acted_in scene.entry given.Nothing r memory.new
        ≡ comes_to (seen_in scene.entry given.Nothing memory.old)
        (plain.notify sending.entry.port sending.entry.op (expr_view sending.entry.value.now))) }
{
    match message_of(alloc, sending, scene, memory)? {
        Message::Faults(name) => Ok(Acted::Faulted(shared(alloc, name)?)),
        Message::Sends(value) => {
            let form = boxed(alloc, Term::Done)?;
            let call = draw_call(memory)?;
            let need = Need::Send {
                call,
                port: sending.port,
                op: sending.op,
                value,
                wants: false,
            };
            let event = event_of(scene.actor, Kind::Notify, call, 0, 0);
            Ok(Acted::Moved(event_came(alloc, form, event, need)?))
        }
    }
}

/// A request is sent, and a call waits for its answer.
pub fn solicited(
    alloc: Global,
    sending: Sending<'_>,
    target: &Option<PathExpr>,
    handlers: &Handlers,
    scene: Scene<'_>,
    memory: &mut Memory,
) -> Result<Acted, AllocError>
    ensures { IfOk result
        (λ r. acted_in scene.entry given.Nothing r memory.new
        ≡ comes_to (seen_in scene.entry given.Nothing memory.old)
        (plain.solicit sending.entry.port sending.entry.op (expr_view sending.entry.value.now)
        (option_map path_view target.now) (handlers_view handlers.now))) }
{
    match message_of(alloc, sending, scene, memory)? {
        Message::Faults(name) => Ok(Acted::Faulted(shared(alloc, name)?)),
        Message::Sends(value) => {
            let form = waiting(alloc, memory.call, sending, target, handlers)?;
            let call = draw_call(memory)?;
            let need = Need::Send {
                call,
                port: sending.port,
                op: sending.op,
                value,
                wants: true,
            };
            let event = event_of(scene.actor, Kind::Solicit, call, 0, 0);
            Ok(Acted::Moved(event_came(alloc, form, event, need)?))
        }
    }
}

/// The number of the next call, which is drawn.
fn draw_call(memory: &mut Memory) -> Result<u32, AllocError>
    ensures drawn { IfOk result (λ call. call ≡ memory.old.call) }
    ensures call { IfOk result (λ call. memory.new.call ≡ suc memory.old.call) }
    ensures next { memory.new.next ≡ memory.old.next }
    ensures store { memory.new.store ≡ memory.old.store }
{
    let call = memory.call;
    memory.call = call.checked_add(1).ok_or(AllocError)?;
    Ok(call)
}

/// A call that waits for its answer.
fn waiting(
    alloc: Global,
    number: u32,
    sending: Sending<'_>,
    target: &Option<PathExpr>,
    handlers: &Handlers,
) -> Result<Box<Term>, AllocError>
    ensures { IfOk result
        (λ t. term_view t.value ≡ terms.wait number sending.entry.port sending.entry.op
        (option_map path_view target.now) (handlers_view handlers.now)) }
{
    let target = copied_path(target)?;
    let call = Call {
        number,
        port: sending.port,
        op: sending.op,
        target,
        handlers: handlers.copied()?,
    };
    let call = Box::new(alloc, call)?;
    boxed(alloc, Term::Wait(call))
}

/// A copy of a path, where there is one.
pub fn copied_path(path: &Option<PathExpr>) -> Result<Option<PathExpr>, AllocError>
    ensures { IfOk result (λ copy. option_map path_view copy ≡ option_map path_view path.now) }
{
    match path {
        None => Ok(None),
        Some(path) => Ok(Some(path.copied()?)),
    }
}
