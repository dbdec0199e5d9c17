ghost use Rattle.std.specs.Prelude.{◌≡◌, [], ◌∷◌, option_map, IfOk, IfNone, None};
ghost use Rattle.behaviour_tree.specs.PartsView.{parts_of};
ghost use Rattle.behaviour_tree.specs.Values.{stepped};
ghost use Rattle.behaviour_tree.specs.declared.words.Given.TheVariants as given;
ghost use Rattle.session_calculus.specs.Names as names;
ghost use Rattle.session_calculus.specs.Scopes as spec;
ghost use Rattle.session_calculus.specs.Terms as terms;
ghost use Rattle.handler_table.specs.View.{table_view};
ghost use Rattle.session_events.specs.Seen.{moved_in, moved_view, seen_by, seen_in};
ghost use Rattle.session_values.specs.declared.memory.Memory.{Memory as Held};
ghost use Rattle.session_forms.specs.View.{fault_view, state_view, term_view};

use crate::event::{Moved, event_came, event_of};
use crate::handlers::handler_started;
use crate::scene::{Scene, scene_of};
use behaviour_tree::{Kind, Need};
use handler_table::Table;
use jolie_trees::{Path, Step};
use session_forms::{Begun, Fault, Installed, ScopeState, Term, boxed};
use session_values::{Actor, Memory, name_at};
use sqlite_items::Items;
use std::alloc::{AllocError, Global};
use std::mem;

/// The event of a scope whose body is done, in the scope around it. What is installed in it goes into the form that
/// stands there then, and what was lent as `own` is not to be used any more. None where its last handler is through, or
/// where a fault left it: then all stays.
pub fn scope_acts(
    alloc: Global,
    own: &mut Installed,
    state: &ScopeState,
    actor: Actor<'_>,
    around: &mut Installed,
    memory: &mut Memory,
) -> Result<Option<Moved>, AllocError>
    ensures event { IfOk result
        (λ r. option_map (λ m. moved_view m around.new memory.new) r
        ≡ spec.scope_acts (seen_by actor.entry given.Nothing around.old memory.old) own.old.scope
        (table_view own.old.table) (state_view state.now)) }
    ensures name { around.new.scope ≡ around.old.scope }
    ensures own { IfOk result (λ r. IfNone r (own.new ≡ own.old)) }
    ensures around { IfOk result (λ r. IfNone r (around.new ≡ around.old)) }
    ensures memory { IfOk result (λ r. IfNone r (memory.new ≡ memory.old)) }
{
    match state {
        ScopeState::Live => Ok(Some(ended(alloc, own, actor, around)?)),
        ScopeState::Caught(fault) => {
            let scene = scene_of(actor, around);
            Ok(Some(fault_handled(alloc, own, fault, scene, memory)?))
        }
        ScopeState::Term => {
            let scene = scene_of(actor, around);
            Ok(Some(end_handled(alloc, own, scene, memory)?))
        }
        ScopeState::Last | ScopeState::Zombie => Ok(None),
    }
}

/// A scope ends, and what it has under the names of scopes passes to the scope around it.
fn ended(
    alloc: Global,
    own: &mut Installed,
    actor: Actor<'_>,
    around: &mut Installed,
) -> Result<Moved, AllocError>
    ensures event { (k : Held) → IfOk result
        (λ m. moved_view m around.new k ≡ spec.ends (seen_by actor.entry given.Nothing around.old k) own.old.scope
        (table_view own.old.table)) }
    ensures name { around.new.scope ≡ around.old.scope }
{
    let completed = taken(alloc, own).completed();
    around.table.reserve_for(&completed)?;
    around.table.merge(completed);
    let form = boxed(alloc, Term::Done)?;
    let event = event_of(actor, Kind::EndScope, 0, own.scope, 0);
    event_came(alloc, form, event, Need::Nothing)
}

/// The handlers of a scope, which keeps none.
fn taken(alloc: Global, own: &mut Installed) -> Table
    ensures table { result ≡ own.old.table }
    ensures name { own.new.scope ≡ own.old.scope }
{
    mem::replace(&mut own.table, Table::empty(alloc))
}

/// The handler of a fault that a scope caught runs in it, and the scope is live again.
fn fault_handled(
    alloc: Global,
    own: &mut Installed,
    fault: &Fault,
    scene: Scene<'_>,
    memory: &mut Memory,
) -> Result<Moved, AllocError>
    ensures { IfOk result
        (λ m. moved_in scene.entry m memory.new
        ≡ spec.handles_fault (seen_in scene.entry given.Nothing memory.old) own.old.scope (table_view own.old.table)
        (fault_view fault.now)) }
{
    note(alloc, own.scope, fault, scene, memory)?;
    let Begun { form, next } = handler_started(alloc, own.table.fault(fault.name), memory.next)?;
    drop(own.table.drop_fault(fault.name));
    memory.next = next;
    let event = event_of(scene.actor, Kind::Handle, 0, own.scope, fault.name);
    let form = in_scope(alloc, own, form, ScopeState::Live)?;
    let moved = event_came(alloc, form, event, Need::Nothing)?;
    Ok(moved)
}

/// The termination handler of a scope runs in it, if it has one; it is its last.
fn end_handled(
    alloc: Global,
    own: &mut Installed,
    scene: Scene<'_>,
    memory: &mut Memory,
) -> Result<Moved, AllocError>
    ensures { IfOk result
        (λ m. moved_in scene.entry m memory.new
        ≡ spec.handles_end (seen_in scene.entry given.Nothing memory.old) own.old.scope (table_view own.old.table)) }
{
    let Begun { form, next } = handler_started(alloc, own.table.scope(own.scope), memory.next)?;
    drop(own.table.spend(own.scope));
    memory.next = next;
    let event = event_of(scene.actor, Kind::Handle, 1, own.scope, 0);
    let form = in_scope(alloc, own, form, ScopeState::Last)?;
    let moved = event_came(alloc, form, event, Need::Nothing)?;
    Ok(moved)
}

/// A body in a scope, which takes the handlers along.
fn in_scope(
    alloc: Global,
    own: &mut Installed,
    body: Box<Term>,
    state: ScopeState,
) -> Result<Box<Term>, AllocError>
    ensures { IfOk result
        (λ t. term_view t.value ≡ terms.in_scope own.old.scope (term_view body.value) (table_view own.old.table)
        (state_view state)) }
{
    let table = taken(alloc, own);
    let scope = own.scope;
    let installed = Box::new(alloc, Installed { scope, table })?;
    boxed(
        alloc,
        Term::Scope {
            installed,
            body,
            state,
        },
    )
}

/// The value of a fault goes to its place in the store, unless that passes a limit.
fn note(
    alloc: Global,
    scope: u32,
    fault: &Fault,
    scene: Scene<'_>,
    memory: &mut Memory,
) -> Result<(), AllocError>
    ensures store { IfOk result
        (λ _. memory.new.store ≡ spec.noted (seen_in scene.entry given.Nothing memory.old) scope
        (fault_view fault.now)) }
    ensures next { memory.new.next ≡ memory.old.next }
    ensures call { memory.new.call ≡ memory.old.call }
{
    let path = place_of_fault(alloc, scope, fault.name, scene.actor)?;
    memory.put(&path, fault.value.copied()?)?;
    Ok(())
}

/// Where a scope finds the value of a fault that it caught.
fn place_of_fault(
    alloc: Global,
    scope: u32,
    fault: u32,
    actor: Actor<'_>,
) -> Result<Path, AllocError>
    ensures { IfOk result
        (λ p. p.steps ≡ stepped (names.name_at (parts_of actor.entry.program.now) scope) None ∷ stepped
        (names.name_at (parts_of actor.entry.program.now) fault) None ∷ []) }
{
    let mut steps = Items::new(alloc);
    steps.push(step_of(alloc, scope, actor)?)?;
    steps.push(step_of(alloc, fault, actor)?)?;
    Ok(Path { steps })
}

/// The step of a name.
fn step_of(alloc: Global, name: u32, actor: Actor<'_>) -> Result<Step, AllocError>
    ensures { IfOk result (λ s. s ≡ stepped (names.name_at (parts_of actor.entry.program.now) name) None) }
{
    Ok(Step {
        name: name_at(alloc, actor.program, name)?,
        index: None,
    })
}
