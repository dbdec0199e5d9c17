ghost use Rattle.std.specs.Prelude.{◌≡◌, option_map, IfOk};
ghost use Rattle.std.specs.Option.{option_copied};
ghost use Rattle.behaviour_tree.specs.Data as plain;
ghost use Rattle.behaviour_tree.specs.View.{behaviour_view, handlers_view};
ghost use Rattle.behaviour_tree.specs.declared.words.Given.TheVariants as given;
ghost use Rattle.session_calculus.specs.Scopes as spec;
ghost use Rattle.session_calculus.specs.Start.{start};
ghost use Rattle.session_calculus.specs.Tables.{or_nothing};
ghost use Rattle.session_events.specs.Came.{acted_view, comes_to};
ghost use Rattle.session_events.specs.Seen.{moved_view, seen_by};
ghost use Rattle.session_values.specs.declared.memory.Memory.{Memory as Held};
ghost use Rattle.session_forms.specs.Begins.{begun_view};

use crate::event::{Acted, Moved, event_came, event_of, shared};
use behaviour_tree::{Behaviour, Handlers, Kind, Need, standard};
use handler_table::InstallError;
use session_forms::{Begun, Installed, Term, boxed, started};
use session_values::{Actor, Memory};
use std::alloc::{AllocError, Global};

/// Handlers are installed in the nearest scope.
pub fn installed(
    alloc: Global,
    handlers: &Handlers,
    actor: Actor<'_>,
    scope: &mut Installed,
) -> Result<Acted, AllocError>
    ensures event { (k : Held) → IfOk result
        (λ r. acted_view actor.entry given.Nothing r scope.new k
        ≡ comes_to (seen_by actor.entry given.Nothing scope.old k) (plain.install (handlers_view handlers.now))) }
    ensures name { scope.new.scope ≡ scope.old.scope }
{
    match scope.table.install(handlers, scope.scope) {
        Ok(()) => {
            let form = boxed(alloc, Term::Done)?;
            let event = event_of(actor, Kind::Install, 0, 0, 0);
            Ok(Acted::Moved(event_came(alloc, form, event, Need::Nothing)?))
        }
        Err(InstallError::TooLarge) => {
            Ok(Acted::Faulted(shared(alloc, standard::HANDLER_TOO_LARGE)?))
        }
        Err(InstallError::Memory(error)) => Err(error),
    }
}

/// The handler under the name of a scope runs once, or nothing.
#[tactic(auto, using(crate::proofs::Starting::starts_by))]
pub fn compensated(
    alloc: Global,
    name: u32,
    actor: Actor<'_>,
    scope: &mut Installed,
    memory: &mut Memory,
) -> Result<Moved, AllocError>
    ensures event { IfOk result
        (λ m. moved_view m scope.new memory.new
        ≡ spec.compensates (seen_by actor.entry given.Nothing scope.old memory.old) name) }
    ensures name { scope.new.scope ≡ scope.old.scope }
{
    let Begun { form, next } = handler_started(alloc, scope.table.scope(name), memory.next)?;
    drop(scope.table.spend(name));
    memory.next = next;
    let event = event_of(actor, Kind::Compensate, 0, name, 0);
    let moved = event_came(alloc, form, event, Need::Nothing)?;
    Ok(moved)
}

/// A handler starts, or nothing.
pub fn handler_started(
    alloc: Global,
    handler: Option<&Behaviour>,
    next: u64,
) -> Result<Begun, AllocError>
    ensures { IfOk result
        (λ b. begun_view b ≡ start (or_nothing (option_map behaviour_view (option_copied handler.entry))) next) }
{
    match handler {
        Some(handler) => started(alloc, handler, next),
        None => {
            let form = boxed(alloc, Term::Done)?;
            Ok(Begun { form, next })
        }
    }
}
