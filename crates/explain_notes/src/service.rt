//! The notes of services.

ghost use Rattle.std.specs.Prelude.{◌≡◌, ◌++◌, IfOk, OnOk, flat_map};
ghost use Rattle.explain_notes.specs.Notes as spec;

use crate::facts::Facts;
use crate::kind::NoteKind;
use crate::list::Mention;
use crate::note::Note;
use crate::rules::add_notes;
use crate::services::mentions_of;
use check_base::{is_concurrent, service_in};
use jolie_ast::{Definition, Service};
use std::alloc::{AllocError, Global};

/// The kinds that are noted of each service, in their order.
const ALWAYS: [NoteKind; 10] = [
    NoteKind::Uncaught,
    NoteKind::Unthrown,
    NoteKind::NothingUndone,
    NoteKind::Unsent,
    NoteKind::OwnSocket,
    NoteKind::Unset,
    NoteKind::Unread,
    NoteKind::TreeCut,
    NoteKind::LiteralCut,
    NoteKind::Unanswered,
];

/// The kinds that are noted of a service whose sessions run beside each other.
const OF_MANY: [NoteKind; 4] = [
    NoteKind::UncaughtInLoop,
    NoteKind::EndsLoop,
    NoteKind::CallEndsLoop,
    NoteKind::NotShared,
];

/// The kinds that are noted of a service of one session.
const OF_ONE: [NoteKind; 5] = [
    NoteKind::EndsService,
    NoteKind::EndsLoop,
    NoteKind::CallEndsLoop,
    NoteKind::Forgotten,
    NoteKind::AnsweredOnce,
];

/// What is noted of a file: of one service after the other.
pub fn notes_of(alloc: Global, file: &[Definition]) -> Result<Vec<Note<'_>>, AllocError>
    ensures { IfOk result (λ notes. notes.items ≡ spec.notes_of file.now) }
{
    let facts = Facts::new(alloc, file)?;
    notes_in(alloc, &facts, file)
}

/// What is noted of a file of these facts.
fn notes_in<'a>(
    alloc: Global,
    facts: &Facts<'a>,
    file: &'a [Definition],
) -> Result<Vec<Note<'a>>, AllocError>
    ensures { IfOk result (λ notes. notes.items ≡ spec.notes_in facts.now file.now) }
{
    let mut notes = Vec::new(alloc);
    for definition in file {
        if let Some(service) = service_in(definition) {
            add_service(alloc, facts, service, &mut notes)?;
        }
    }
    Ok(notes)
}

/// What is noted of a service: of one kind after the other.
fn add_service<'a>(
    alloc: Global,
    facts: &Facts<'a>,
    service: &'a Service,
    notes: &mut Vec<Note<'a>>,
) -> Result<(), AllocError>
    ensures { OnOk result (notes.new.items ≡ notes.old.items ++ spec.service_notes facts.now service.now) }
{
    let mentions = mentions_of(alloc, service)?;
    let seen = mentions.as_slice();
    let kinds = kinds_by_sessions(service);
    add_kinds(alloc, &ALWAYS, facts, seen, notes)?;
    add_kinds(alloc, kinds, facts, seen, notes)?;
    Ok(())
}

/// The kinds that are noted of a service by how its sessions are run.
fn kinds_by_sessions(service: &Service) -> &'static [NoteKind]
    ensures { result.now ≡ spec.kinds_by_sessions service.now }
{
    if is_concurrent(service) {
        &OF_MANY
    } else {
        &OF_ONE
    }
}

/// The notes of these kinds.
#[tactic(auto, using(crate::proofs::Turns::turn_of, crate::proofs::Turns::turn_at))]
fn add_kinds<'a>(
    alloc: Global,
    kinds: &[NoteKind],
    facts: &Facts<'a>,
    seen: &[Mention<'a>],
    notes: &mut Vec<Note<'a>>,
) -> Result<(), AllocError>
    ensures { OnOk result (notes.new.items ≡ notes.old.items ++ flat_map (spec.notes_for facts.now seen.now) kinds.now) }
{
    for kind in kinds {
        add_notes(alloc, *kind, facts, seen, notes)?;
    }
    Ok(())
}
