ghost use Rattle.std.specs.Prelude.{◌≡◌, None, map, option_map, IfOk};
ghost use Rattle.behaviour_tree.specs.Data as plain;
ghost use Rattle.behaviour_tree.specs.FormedBehaviours.{branch_operations};
ghost use Rattle.behaviour_tree.specs.View.{behaviour_view, branch_view, branches_of, path_view, reply_view};
ghost use Rattle.behaviour_tree.specs.declared.words.Need.TheVariants as need;
ghost use Rattle.session_calculus.specs.Inputs as spec;
ghost use Rattle.session_calculus.specs.Start.{begun};
ghost use Rattle.session_calculus.specs.Terms as terms;
ghost use Rattle.session_events.specs.Came.{acted_in, came, comes_to};
ghost use Rattle.session_events.specs.Comes.{arrives, asked_after, coming, in_event, mail_of};
ghost use Rattle.session_events.specs.Goes.{goes};
ghost use Rattle.session_events.specs.Seen.{moved_in, seen_in};
ghost use Rattle.session_forms.specs.View.{term_view};

use crate::asked::ops_of;
use crate::event::{Acted, Moved, event_came, event_of, instead};
use crate::scene::Scene;
use crate::send::copied_path;
use behaviour_tree::{Behaviour, Branch, Given, Kind, Need, Numbers, ReplyPart, in_u32};
use jolie_trees::Tree;
use session_forms::{Begun, Rest, Term, boxed, started};
use session_values::{Actor, Memory, receive};
use std::alloc::{AllocError, Global};

/// A message: its number, its operation and its value.
#[derive(Clone, Copy)]
pub struct Mail<'a> {
    pub message: u32,
    pub op: u32,
    pub value: &'a Tree,
}

/// A message comes to a choice, where the office gave one of its operations.
pub fn chosen(
    alloc: Global,
    list: &[Branch],
    given: &Given,
    scene: Scene<'_>,
    memory: &mut Memory,
) -> Result<Acted, AllocError>
    ensures { IfOk result
        (λ r. acted_in scene.entry given.now r memory.new
        ≡ comes_to (seen_in scene.entry given.now memory.old)
        (plain.choice (branches_of (map branch_view list.now)))) }
{
    match given {
        Given::Mail { message, op, value } => {
            let mail = Mail {
                message: *message,
                op: *op,
                value,
            };
            comes(alloc, list, mail, scene, memory)
        }
        Given::Nothing | Given::Answer { .. } => Ok(Acted::Stuck),
        Given::Bound | Given::Held(_) | Given::Fixed => Ok(Acted::Stuck),
    }
}

/// A message comes to the first branch of its operation.
fn comes(
    alloc: Global,
    list: &[Branch],
    mail: Mail<'_>,
    scene: Scene<'_>,
    memory: &mut Memory,
) -> Result<Acted, AllocError>
    ensures { IfOk result
        (λ r. acted_in scene.entry (mail_of mail.entry) r memory.new
        ≡ came (seen_in scene.entry (mail_of mail.entry) memory.old) None
        (spec.comes (seen_in scene.entry (mail_of mail.entry) memory.old)
        (coming mail.entry (branch_operations (branches_of (map branch_view list.now))) 0)
        (branches_of (map branch_view list.now)))) }
{
    for i in 0..list.len() {
        let branch = &list[i];
        if branch.op == mail.op {
            let ops = ops_of(alloc, list)?;
            let arrived = arrived(alloc, branch, mail, i, ops, scene, memory)?;
            return Ok(Acted::Moved(arrived));
        }
    }
    Ok(Acted::Stuck)
}

/// A message comes to a branch of its operation.
fn arrived(
    alloc: Global,
    branch: &Branch,
    mail: Mail<'_>,
    place: usize,
    ops: Numbers,
    scene: Scene<'_>,
    memory: &mut Memory,
) -> Result<Moved, AllocError>
    ensures { IfOk result
        (λ m. moved_in scene.entry m memory.new
        ≡ arrives (seen_in scene.entry (mail_of mail.entry) memory.old) (coming mail.entry ops place)
        (branch_view branch.now)) }
{
    let fault = receive(alloc, &branch.target, mail.value.copied()?, memory)?;
    match &branch.reply {
        None => {
            let form = gone_on(alloc, &branch.after, fault, memory)?;
            taken(alloc, form, mail, place, ops, scene.actor)
        }
        Some(reply) => {
            let body = gone_on(alloc, &reply.body, fault, memory)?;
            let form = asked(alloc, mail, reply, &branch.after, body)?;
            taken(alloc, form, mail, place, ops, scene.actor)
        }
    }
}

/// A message was taken.
fn taken(
    alloc: Global,
    form: Box<Term>,
    mail: Mail<'_>,
    place: usize,
    ops: Numbers,
    actor: Actor<'_>,
) -> Result<Moved, AllocError>
    ensures form { IfOk result (λ m. m.form.value ≡ form.value) }
    ensures event { IfOk result (λ m. m.event ≡ in_event actor.entry mail.entry.message place) }
    ensures need { IfOk result (λ m. m.need.value ≡ need.Take ops) }
{
    let event = event_of(actor, Kind::In, mail.message, in_u32(place), 0);
    event_came(alloc, form, event, Need::Take { ops })
}

/// A behaviour starts; or the fault of what came stands in its place.
fn gone_on(
    alloc: Global,
    behaviour: &Behaviour,
    fault: Option<u32>,
    memory: &mut Memory,
) -> Result<Box<Term>, AllocError>
    ensures form { IfOk result
        (λ t. begun (term_view t.value) memory.new.next ≡ goes fault (behaviour_view behaviour.now) memory.old.next) }
    ensures store { memory.new.store ≡ memory.old.store }
    ensures call { memory.new.call ≡ memory.old.call }
{
    match fault {
        Some(name) => instead(alloc, name),
        None => {
            let Begun { form, next } = started(alloc, behaviour, memory.next)?;
            memory.next = next;
            Ok(form)
        }
    }
}

/// The body of a request, with what comes next after it.
fn asked(
    alloc: Global,
    mail: Mail<'_>,
    reply: &ReplyPart,
    after: &Behaviour,
    body: Box<Term>,
) -> Result<Box<Term>, AllocError>
    ensures { IfOk result
        (λ t. term_view t.value ≡ asked_after mail.entry (reply_view reply.now).path (behaviour_view after.now)
        (term_view body.value)) }
{
    let head = in_request(alloc, mail, reply, body)?;
    let rest = Rest::of_one(alloc, after)?;
    boxed(alloc, Term::Seq { head, rest })
}

/// The body of a request.
fn in_request(
    alloc: Global,
    mail: Mail<'_>,
    reply: &ReplyPart,
    body: Box<Term>,
) -> Result<Box<Term>, AllocError>
    ensures { IfOk result
        (λ t. term_view t.value ≡ terms.exec mail.entry.message mail.entry.op (reply_view reply.now).path
        (term_view body.value)) }
{
    let form = Term::Exec {
        message: mail.message,
        op: mail.op,
        path: copied_path(&reply.path)?,
        body,
    };
    boxed(alloc, form)
}
