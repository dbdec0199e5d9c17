ghost use Rattle.std.specs.Prelude.{◌≡◌, option_map, IfOk, if◌then◌else◌};
ghost use Rattle.behaviour_tree.specs.View.{handlers_view, path_view};
ghost use Rattle.behaviour_tree.specs.declared.words.Given.TheVariants as given;
ghost use Rattle.behaviour_tree.specs.declared.words.Given.{Given};
ghost use Rattle.behaviour_tree.specs.declared.words.Need.TheVariants as need;
ghost use Rattle.session_calculus.specs.Answers as spec;
ghost use Rattle.session_calculus.specs.Moves.{moved_to};
ghost use Rattle.session_calculus.specs.Tables.{fits, plus};
ghost use Rattle.handler_table.specs.View.{table_view};
ghost use Rattle.session_events.specs.Reads.{answer_event, as_sent, call_of};
ghost use Rattle.session_events.specs.Seen.{made_with, moved_view, seen_by};
ghost use Rattle.session_forms.specs.View.{term_view};
ghost use Rattle.session_values.specs.declared.memory.Memory.{Memory as Held};

use crate::event::{Moved, event_came, event_of, instead};
use crate::read::{Read, SentCall, read_outcome};
use behaviour_tree::{Handlers, Kind, Need, Outcome, standard};
use handler_table::InstallError;
use jolie_trees::Tree;
use session_forms::{Call, Installed, Term, boxed};
use session_values::{Actor, Memory, receive};
use std::alloc::{AllocError, Global};
use std::sync::Arc;

/// The answer of a call that waits comes.
#[tactic(auto, using(crate::proofs::Reading::read_by))]
pub fn answer_came(
    alloc: Global,
    call: &Call,
    outcome: &Outcome,
    actor: Actor<'_>,
    installed: &mut Installed,
    memory: &mut Memory,
) -> Result<Moved, AllocError>
    ensures event { IfOk result
        (λ m. moved_view m installed.new memory.new
        ≡ spec.answers (seen_by actor.entry (given.Answer outcome.now) installed.old memory.old)
        (call_of (as_sent call.now)) (option_map path_view call.now.target) (handlers_view call.now.handlers)
        (spec.read (seen_by actor.entry (given.Answer outcome.now) installed.old memory.old)
        (call_of (as_sent call.now)) outcome.now)) }
    ensures name { installed.new.scope ≡ installed.old.scope }
{
    match read_outcome(alloc, sent_of(call), outcome, actor)? {
        Read::Faulted(fault) => {
            let fault = Arc::new(alloc, fault)?;
            let form = boxed(alloc, Term::Thrown(fault))?;
            let moved = answered(alloc, form, call.number, actor)?;
            Ok(moved)
        }
        Read::Answered(value) => {
            let form = value_came(alloc, call, value, actor, installed, memory)?;
            let moved = answered(alloc, form, call.number, actor)?;
            Ok(moved)
        }
    }
}

/// The answer of a call that was killed while it waited comes: a value installs its handlers where they fit.
#[tactic(auto, using(crate::proofs::Reading::read_by))]
pub fn killed_answer_came(
    alloc: Global,
    call: &Call,
    outcome: &Outcome,
    actor: Actor<'_>,
    installed: &mut Installed,
) -> Result<Moved, AllocError>
    ensures event { (k : Held) → IfOk result
        (λ m. moved_view m installed.new k
        ≡ spec.dead_answers (seen_by actor.entry (given.Answer outcome.now) installed.old k)
        (call_of (as_sent call.now)) (handlers_view call.now.handlers)
        (spec.read (seen_by actor.entry (given.Answer outcome.now) installed.old k) (call_of (as_sent call.now))
        outcome.now)) }
    ensures name { installed.new.scope ≡ installed.old.scope }
{
    match read_outcome(alloc, sent_of(call), outcome, actor)? {
        Read::Faulted(_) => {
            let form = boxed(alloc, Term::Done)?;
            let moved = answered(alloc, form, call.number, actor)?;
            Ok(moved)
        }
        Read::Answered(_) => {
            installed_where_fit(&call.handlers, installed)?;
            let form = boxed(alloc, Term::Done)?;
            let moved = answered(alloc, form, call.number, actor)?;
            Ok(moved)
        }
    }
}

/// Where a call was sent.
fn sent_of(call: &Call) -> SentCall
    ensures { result ≡ as_sent call.now }
{
    SentCall {
        number: call.number,
        port: call.port,
        op: call.op,
    }
}

/// The answer of a call.
fn answered(
    alloc: Global,
    form: Box<Term>,
    number: u32,
    actor: Actor<'_>,
) -> Result<Moved, AllocError>
    ensures form { IfOk result (λ m. m.form.value ≡ form.value) }
    ensures event { IfOk result (λ m. m.event ≡ answer_event actor.entry number) }
    ensures need { IfOk result (λ m. m.need.value ≡ need.Answer number) }
{
    let event = event_of(actor, Kind::Answer, number, 0, 0);
    event_came(alloc, form, event, Need::Answer { call: number })
}

/// Installs handlers, and says whether they fit; where they do not, the table stays.
fn installed_where_fit(handlers: &Handlers, installed: &mut Installed) -> Result<bool, AllocError>
    ensures fit { IfOk result
        (λ fit. fit ≡ fits installed.old.scope (table_view installed.old.table) (handlers_view handlers.now)) }
    ensures table { IfOk result
        (λ fit. table_view installed.new.table
        ≡ (if fit then plus installed.old.scope (table_view installed.old.table) (handlers_view handlers.now)
        else table_view installed.old.table)) }
    ensures name { installed.new.scope ≡ installed.old.scope }
{
    match installed.table.install(handlers, installed.scope) {
        Ok(()) => Ok(true),
        Err(InstallError::TooLarge) => Ok(false),
        Err(InstallError::Memory(error)) => Err(error),
    }
}

/// What stands where a value came: nothing, once the handlers are installed and the target has the value; else the
/// fault.
fn value_came(
    alloc: Global,
    call: &Call,
    value: Tree,
    actor: Actor<'_>,
    installed: &mut Installed,
    memory: &mut Memory,
) -> Result<Box<Term>, AllocError>
    ensures event { (g : Given) → IfOk result
        (λ t. moved_to (term_view t.value)
        (made_with installed.new memory.new (answer_event actor.entry call.now.number) (need.Answer call.now.number))
        ≡ spec.value_comes (seen_by actor.entry g installed.old memory.old) (call_of (as_sent call.now))
        (option_map path_view call.now.target) (handlers_view call.now.handlers) value) }
    ensures name { installed.new.scope ≡ installed.old.scope }
{
    if !installed_where_fit(&call.handlers, installed)? {
        return instead(alloc, standard::HANDLER_TOO_LARGE);
    }
    match receive(alloc, &call.target, value, memory)? {
        None => boxed(alloc, Term::Done),
        Some(fault) => instead(alloc, fault),
    }
}
