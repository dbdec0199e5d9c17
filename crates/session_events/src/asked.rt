ghost use Rattle.std.specs.Prelude.{◌≡◌, map, option_map, Some, IfOk};
ghost use Rattle.behaviour_tree.specs.FormedBehaviours.{branch_operations};
ghost use Rattle.behaviour_tree.specs.View.{behaviour_view, branch_view, branches_of, expr_view};
ghost use Rattle.behaviour_tree.specs.declared.words.Given.TheVariants as given;
ghost use Rattle.behaviour_tree.specs.declared.words.Given.{Given};
ghost use Rattle.behaviour_tree.specs.declared.words.Need.TheVariants as need;
ghost use Rattle.session_calculus.specs.Calls as calls;
ghost use Rattle.session_calculus.specs.Faults as faults;
ghost use Rattle.session_events.specs.Asked as spec;
ghost use Rattle.session_events.specs.Seen.{seen_by, seen_in};

use crate::message::{Message, Sending, message_of};
use crate::scene::{Scene, scene_of};
use behaviour_tree::{Behaviour, Branch, Expr, Need, Numbers};
use session_forms::Installed;
use session_values::{Actor, Memory, binding};
use sqlite_items::Items;
use std::alloc::{AllocError, Global};

/// What a place without a fault asks of the office for its event, none where it has no event.
pub fn asked_of(
    alloc: Global,
    place: &Behaviour,
    actor: Actor<'_>,
    installed: &Installed,
    memory: &Memory,
) -> Result<Option<Box<Need>>, AllocError>
    ensures { (g : Given) → IfOk result
        (λ need. option_map (λ n. n.value) need
        ≡ spec.asked (seen_by actor.entry g installed.now memory.now) (behaviour_view place.now)) }
{
    asked_at(alloc, place, scene_of(actor, installed), memory)
}

/// The same where an event is.
fn asked_at(
    alloc: Global,
    place: &Behaviour,
    scene: Scene<'_>,
    memory: &Memory,
) -> Result<Option<Box<Need>>, AllocError>
    ensures { IfOk result
        (λ need. option_map (λ n. n.value) need
        ≡ spec.asked (seen_in scene.entry given.Nothing memory.now) (behaviour_view place.now)) }
{
    match place {
        Behaviour::Assign { .. } | Behaviour::Undef { .. } | Behaviour::Copy { .. } => {
            asked(alloc, Need::Nothing)
        }
        Behaviour::If { .. } | Behaviour::While { .. } => asked(alloc, Need::Nothing),
        Behaviour::Install(_) | Behaviour::Comp(_) => asked(alloc, Need::Nothing),
        Behaviour::Choice(list) => message_asked(alloc, list),
        Behaviour::Notify { port, op, value } => {
            let sending = Sending {
                port: *port,
                op: *op,
                value,
            };
            send_asked(alloc, sending, false, scene, memory)
        }
        Behaviour::Solicit {
            port,
            op,
            value,
            ..
        } => {
            let sending = Sending {
                port: *port,
                op: *op,
                value,
            };
            send_asked(alloc, sending, true, scene, memory)
        }
        Behaviour::Bind { variable, value } => bind_asked(alloc, *variable, value, memory),
        Behaviour::Throw { .. } | Behaviour::Nothing | Behaviour::InnerHandler => Ok(None),
        Behaviour::Sequence(_) | Behaviour::Parallel(_) => Ok(None),
        Behaviour::Scope { .. } | Behaviour::Block(_) => Ok(None),
    }
}

fn asked(alloc: Global, need: Need) -> Result<Option<Box<Need>>, AllocError>
    ensures { IfOk result (λ n. option_map (λ b. b.value) n ≡ Some need) }
{
    Ok(Some(Box::new(alloc, need)?))
}

/// A message of one of the operations of a choice.
fn message_asked(alloc: Global, list: &[Branch]) -> Result<Option<Box<Need>>, AllocError>
    ensures { IfOk result
        (λ n. option_map (λ b. b.value) n
        ≡ spec.one_of (branch_operations (branches_of (map branch_view list.now)))) }
{
    if list.is_empty() {
        return Ok(None);
    }
    let ops = ops_of(alloc, list)?;
    asked(alloc, Need::Take { ops })
}

/// The operations of branches, in order.
pub fn ops_of(alloc: Global, list: &[Branch]) -> Result<Numbers, AllocError>
    ensures { IfOk result (λ ops. ops ≡ branch_operations (branches_of (map branch_view list.now))) }
{
    let mut ops = Items::new(alloc);
    for branch in list {
        ops.push(branch.op)?;
    }
    Ok(ops)
}

/// The sending of a message under the next call number, where it has no fault.
fn send_asked(
    alloc: Global,
    sending: Sending<'_>,
    wants: bool,
    scene: Scene<'_>,
    memory: &Memory,
) -> Result<Option<Box<Need>>, AllocError>
    ensures { IfOk result
        (λ n. option_map (λ b. b.value) n
        ≡ option_map (λ v. need.Send memory.now.call sending.entry.port sending.entry.op v wants)
        (calls.message_value (seen_in scene.entry given.Nothing memory.now) sending.entry.port sending.entry.op
        (expr_view sending.entry.value.now))) }
{
    match message_of(alloc, sending, scene, memory)? {
        Message::Faults(_) => Ok(None),
        Message::Sends(value) => {
            let need = Need::Send {
                call: memory.call,
                port: sending.port,
                op: sending.op,
                value,
                wants,
            };
            Ok(Some(Box::new(alloc, need)?))
        }
    }
}

/// The binding of a variable, where there is something to bind it to.
fn bind_asked(
    alloc: Global,
    variable: u32,
    expr: &Expr,
    memory: &Memory,
) -> Result<Option<Box<Need>>, AllocError>
    ensures { IfOk result
        (λ n. option_map (λ b. b.value) n
        ≡ option_map (need.Bind variable) (faults.binding memory.now.store (expr_view expr.now))) }
{
    match binding(alloc, expr, &memory.store)? {
        None => Ok(None),
        Some(value) => asked(alloc, Need::Bind { variable, value }),
    }
}
