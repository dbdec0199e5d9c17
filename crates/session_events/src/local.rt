ghost use Rattle.std.specs.Prelude.{◌≡◌, IfOk};
ghost use Rattle.behaviour_tree.specs.Data as plain;
ghost use Rattle.behaviour_tree.specs.View.{behaviour_view, expr_view, path_view};
ghost use Rattle.behaviour_tree.specs.declared.words.Given.TheVariants as given;
ghost use Rattle.behaviour_tree.specs.declared.words.Kind.TheVariants as kind;
ghost use Rattle.behaviour_tree.specs.declared.words.Need.TheVariants as need;
ghost use Rattle.session_calculus.specs.Moves as moves;
ghost use Rattle.session_calculus.specs.Terms as terms;
ghost use Rattle.session_events.specs.Came.{acted_in, comes_to};
ghost use Rattle.session_events.specs.Goes.{local_event};
ghost use Rattle.session_events.specs.Seen.{moved_in, seen_in};
ghost use Rattle.session_forms.specs.Begins.{begun_view};
ghost use Rattle.session_forms.specs.View.{term_view};

use crate::event::{Acted, Moved, event_came, event_of, shared};
use crate::scene::Scene;
use behaviour_tree::{Behaviour, Expr, Kind, Need, PathExpr, standard};
use session_forms::{Begun, Term, boxed, started, started_both};
use session_values::{Actor, Memory, assign, copy, take_away, truth};
use std::alloc::{AllocError, Global};

/// The root of a value is put at a path.
#[tactic(auto, using(crate::proofs::Finishing::effect_faulted, crate::proofs::Finishing::effect_done))]
pub fn assigned(
    alloc: Global,
    path: &PathExpr,
    expr: &Expr,
    scene: Scene<'_>,
    memory: &mut Memory,
) -> Result<Acted, AllocError>
    ensures { IfOk result
        (λ r. acted_in scene.entry given.Nothing r memory.new
        ≡ comes_to (seen_in scene.entry given.Nothing memory.old)
        (plain.assign (path_view path.now) (expr_view expr.now))) }
{
    match assign(alloc, path, expr, memory)? {
        Some(name) => Ok(Acted::Faulted(shared(alloc, name)?)),
        None => Ok(Acted::Moved(done_locally(alloc, scene.actor)?)),
    }
}

/// The whole tree of a value is put at a path.
#[tactic(auto, using(crate::proofs::Finishing::effect_faulted, crate::proofs::Finishing::effect_done))]
pub fn copied(
    alloc: Global,
    path: &PathExpr,
    expr: &Expr,
    scene: Scene<'_>,
    memory: &mut Memory,
) -> Result<Acted, AllocError>
    ensures { IfOk result
        (λ r. acted_in scene.entry given.Nothing r memory.new
        ≡ comes_to (seen_in scene.entry given.Nothing memory.old)
        (plain.copy (path_view path.now) (expr_view expr.now))) }
{
    match copy(alloc, path, expr, memory)? {
        Some(name) => Ok(Acted::Faulted(shared(alloc, name)?)),
        None => Ok(Acted::Moved(done_locally(alloc, scene.actor)?)),
    }
}

/// What a path names is taken away.
#[tactic(auto, using(crate::proofs::Finishing::effect_faulted, crate::proofs::Finishing::effect_done))]
pub fn taken_away(
    alloc: Global,
    path: &PathExpr,
    scene: Scene<'_>,
    memory: &mut Memory,
) -> Result<Acted, AllocError>
    ensures { IfOk result
        (λ r. acted_in scene.entry given.Nothing r memory.new
        ≡ comes_to (seen_in scene.entry given.Nothing memory.old) (plain.undef (path_view path.now))) }
{
    match take_away(alloc, path, memory)? {
        Some(name) => Ok(Acted::Faulted(shared(alloc, name)?)),
        None => Ok(Acted::Moved(done_locally(alloc, scene.actor)?)),
    }
}

/// A test starts one behaviour or the other.
pub fn tested(
    alloc: Global,
    test: &Expr,
    then: &Behaviour,
    other: &Behaviour,
    scene: Scene<'_>,
    memory: &mut Memory,
) -> Result<Acted, AllocError>
    ensures { IfOk result
        (λ r. acted_in scene.entry given.Nothing r memory.new
        ≡ comes_to (seen_in scene.entry given.Nothing memory.old)
        (plain.choose (expr_view test.now) (behaviour_view then.now) (behaviour_view other.now))) }
{
    match truth(alloc, test, &memory.store)? {
        None => Ok(Acted::Faulted(shared(alloc, standard::EXPR_FAULT)?)),
        Some(true) => Ok(Acted::Moved(started_locally(alloc, then, scene, memory)?)),
        Some(false) => Ok(Acted::Moved(started_locally(alloc, other, scene, memory)?)),
    }
}

/// A while starts its body, followed by itself; or it is done.
#[tactic(auto, using(crate::proofs::Starting::starts_by))]
pub fn repeated(
    alloc: Global,
    test: &Expr,
    body: &Behaviour,
    whole: &Behaviour,
    scene: Scene<'_>,
    memory: &mut Memory,
) -> Result<Acted, AllocError>
    requires { behaviour_view whole.now ≡ plain.repeat (expr_view test.now) (behaviour_view body.now) }
    ensures { IfOk result
        (λ r. acted_in scene.entry given.Nothing r memory.new
        ≡ comes_to (seen_in scene.entry given.Nothing memory.old)
        (plain.repeat (expr_view test.now) (behaviour_view body.now))) }
{
    match truth(alloc, test, &memory.store)? {
        None => Ok(Acted::Faulted(shared(alloc, standard::EXPR_FAULT)?)),
        Some(true) => {
            let begun = started_both(alloc, body, whole, memory.next)?;
            Ok(Acted::Moved(begun_locally(alloc, begun, scene, memory)?))
        }
        Some(false) => Ok(Acted::Moved(done_locally(alloc, scene.actor)?)),
    }
}

/// A local event by which a behaviour starts.
#[tactic(auto, using(crate::proofs::Starting::starts_by))]
fn started_locally(
    alloc: Global,
    behaviour: &Behaviour,
    scene: Scene<'_>,
    memory: &mut Memory,
) -> Result<Moved, AllocError>
    ensures { IfOk result
        (λ m. moved_in scene.entry m memory.new
        ≡ moves.starts (behaviour_view behaviour.now)
        (moves.quietly (seen_in scene.entry given.Nothing memory.old) kind.Local)) }
{
    let begun = started(alloc, behaviour, memory.next)?;
    let moved = begun_locally(alloc, begun, scene, memory)?;
    Ok(moved)
}

/// A local event by which a form began.
fn begun_locally(
    alloc: Global,
    begun: Begun,
    scene: Scene<'_>,
    memory: &mut Memory,
) -> Result<Moved, AllocError>
    ensures { IfOk result
        (λ m. moved_in scene.entry m memory.new
        ≡ moves.moved_to (begun_view begun).form
        (record (moves.quietly (seen_in scene.entry given.Nothing memory.old) kind.Local) {
          next = (begun_view begun).next;
        })) }
{
    let Begun { form, next } = begun;
    memory.next = next;
    let moved = moved_locally(alloc, form, scene.actor)?;
    Ok(moved)
}

/// A local event that leaves nothing.
fn done_locally(alloc: Global, actor: Actor<'_>) -> Result<Moved, AllocError>
    ensures form { IfOk result (λ m. term_view m.form.value ≡ terms.done) }
    ensures event { IfOk result (λ m. m.event ≡ local_event actor.entry) }
    ensures need { IfOk result (λ m. m.need.value ≡ need.Nothing) }
{
    let form = boxed(alloc, Term::Done)?;
    let moved = moved_locally(alloc, form, actor)?;
    Ok(moved)
}

/// A local event, which asks nothing of the office.
fn moved_locally(alloc: Global, form: Box<Term>, actor: Actor<'_>) -> Result<Moved, AllocError>
    ensures form { IfOk result (λ m. m.form.value ≡ form.value) }
    ensures event { IfOk result (λ m. m.event ≡ local_event actor.entry) }
    ensures need { IfOk result (λ m. m.need.value ≡ need.Nothing) }
{
    event_came(
        alloc,
        form,
        event_of(actor, Kind::Local, 0, 0, 0),
        Need::Nothing,
    )
}
