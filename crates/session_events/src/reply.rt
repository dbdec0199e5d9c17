ghost use Rattle.std.specs.Prelude.{◌≡◌, option_map, IfOk};
ghost use Rattle.behaviour_tree.specs.PartsView.{parts_of};
ghost use Rattle.behaviour_tree.specs.View.{path_view};
ghost use Rattle.behaviour_tree.specs.declared.words.Given.TheVariants as given;
ghost use Rattle.session_calculus.specs.Replies as spec;
ghost use Rattle.session_calculus.specs.Terms as terms;
ghost use Rattle.session_events.specs.Seen.{moved_in, seen_in};
ghost use Rattle.session_values.specs.declared.memory.Memory.{Memory as Held};
ghost use Rattle.session_forms.specs.View.{fault_view, term_view};

use crate::event::{Moved, event_came, event_of};
use crate::scene::Scene;
use behaviour_tree::{Kind, Need, Outcome, PathExpr, standard};
use jolie_trees::Tree;
use session_forms::{Fault, Term, boxed};
use session_values::{Actor, Memory, name_at, reply_taken, tree_at, written_path};
use std::alloc::{AllocError, Global};

/// A request whose body is done is answered.
pub fn replied(
    alloc: Global,
    message: u32,
    op: u32,
    path: &Option<PathExpr>,
    scene: Scene<'_>,
    memory: &Memory,
) -> Result<Moved, AllocError>
    ensures { IfOk result
        (λ m. moved_in scene.entry m memory.now
        ≡ spec.replies (seen_in scene.entry given.Nothing memory.now) message
        (spec.reply_of (seen_in scene.entry given.Nothing memory.now) op (option_map path_view path.now))
        terms.done) }
{
    let form = boxed(alloc, Term::Done)?;
    let outcome = reply_of(alloc, op, path, scene, memory)?;
    let event = event_of(scene.actor, Kind::Reply, message, 0, 0);
    let moved = event_came(alloc, form, event, Need::Reply { message, outcome })?;
    Ok(moved)
}

/// The fault of a failed request is told, and what is left of it goes on.
pub fn failure_told(
    alloc: Global,
    message: u32,
    fault: &Fault,
    body: Box<Term>,
    scene: Scene<'_>,
) -> Result<Moved, AllocError>
    ensures { (k : Held) → IfOk result
        (λ m. moved_in scene.entry m k ≡ spec.replies (seen_in scene.entry given.Nothing k) message
        (spec.outcome_of_fault (parts_of scene.entry.actor.program.now) (fault_view fault.now))
        (term_view body.value)) }
{
    let outcome = outcome_of_fault(alloc, fault.name, fault.value.copied()?, scene.actor)?;
    let event = event_of(scene.actor, Kind::Reply, message, 0, 0);
    let moved = event_came(alloc, body, event, Need::Reply { message, outcome })?;
    Ok(moved)
}

/// The answer of a request: the value at its path, as the response type takes it, or a fault.
fn reply_of(
    alloc: Global,
    op: u32,
    path: &Option<PathExpr>,
    scene: Scene<'_>,
    memory: &Memory,
) -> Result<Outcome, AllocError>
    ensures { IfOk result
        (λ o. o ≡ spec.reply_of (seen_in scene.entry given.Nothing memory.now) op (option_map path_view path.now)) }
{
    let value = reply_value(alloc, path, &memory.store)?;
    match reply_taken(scene.actor, op, value) {
        Some(value) => Ok(Outcome::Value(value)),
        None => outcome_of_fault(
            alloc,
            standard::TYPE_MISMATCH,
            Tree::void(alloc),
            scene.actor,
        ),
    }
}

/// The whole tree at the path of a reply, void where there is no path.
fn reply_value(alloc: Global, path: &Option<PathExpr>, store: &Tree) -> Result<Tree, AllocError>
    ensures { IfOk result (λ v. v ≡ spec.reply_value store.now (option_map path_view path.now)) }
{
    match path {
        None => Ok(Tree::void(alloc)),
        Some(path) => {
            let path = written_path(alloc, path)?;
            tree_at(alloc, store, &path)
        }
    }
}

/// A fault as an answer: by the text of its name.
fn outcome_of_fault(
    alloc: Global,
    name: u32,
    value: Tree,
    actor: Actor<'_>,
) -> Result<Outcome, AllocError>
    ensures { IfOk result
        (λ o. o ≡ spec.outcome_of_fault (parts_of actor.entry.program.now) (record { name = name; value = value })) }
{
    let name = name_at(alloc, actor.program, name)?;
    Ok(Outcome::Fault { name, value })
}
