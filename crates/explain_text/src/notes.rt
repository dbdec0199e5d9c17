//! A program, with its notes.

ghost use Rattle.std.specs.Prelude.{◌≡◌, ◌++◌, IfOk, MatchResult, OnOk, codes, string_bytes};
ghost use Rattle.explain_notes.specs.Notes.{notes_of};
ghost use Rattle.check_verdicts.specs.Programs.{IsUncheckedBy};
ghost use Rattle.check_verdicts.specs.RefusalLines.{refusal_line};
ghost use Rattle.explain_text.specs.Noted as spec;

use crate::front::begins_with;
use crate::lines::add_pointed;
use check_verdicts::{Refusal, definitions_in};
use explain_notes::{Note, NoteKind, notes_of};
use explain_places::behind;
use jolie_ast::Ast;
use std::alloc::{AllocError, Global};

/// What a person reads of a program: `ok` and its notes. Of another text it is why it is none.
#[tactic(auto, using(crate::proofs::Programs::is_refused))]
pub fn noted(alloc: Global, file: &str, text: &[u8]) -> Result<Result<Vec<u8>, Refusal>, AllocError>
    ensures { IfOk result
        (λ found. MatchResult found (λ bytes. spec.IsNoted file.now text.now bytes.items)
        (λ refusal. IsUncheckedBy text.now (refusal_line refusal))) }
{
    let definitions = match definitions_in(alloc, text)? {
        Ok(definitions) => definitions,
        Err(refusal) => return Ok(Err(refusal)),
    };
    let bytes = notes_on(alloc, file, text, &definitions)?;
    Ok(Ok(bytes))
}

/// `ok`, and the lines of the notes of these definitions.
fn notes_on(
    alloc: Global,
    file: &str,
    text: &[u8],
    definitions: &Ast,
) -> Result<Vec<u8>, AllocError>
    ensures { IfOk result (λ bytes. bytes.items ≡ spec.noted_text file.now text.now (notes_of definitions.now)) }
{
    let notes = notes_of(alloc, definitions.definitions())?;
    with_notes(alloc, file, text, notes.as_slice())
}

/// `ok`, and the lines of each note.
fn with_notes(alloc: Global, file: &str, text: &[u8], notes: &[Note]) -> Result<Vec<u8>, AllocError>
    ensures { IfOk result (λ bytes. bytes.items ≡ spec.noted_text file.now text.now notes.now) }
{
    let mut bytes = Vec::from_slice(alloc, "ok\n".as_bytes())?;
    for note in notes {
        add_note(alloc, file, text, note, &mut bytes)?;
    }
    Ok(bytes)
}

/// Adds the lines of a note.
fn add_note(
    alloc: Global,
    file: &str,
    text: &[u8],
    note: &Note,
    bytes: &mut Vec<u8>,
) -> Result<(), AllocError>
    ensures { OnOk result (bytes.new.items ≡ bytes.old.items ++ spec.note_lines file.now text.now note.now) }
{
    let at = note.at() as usize;
    let said = said(alloc, note, behind(text, at))?;
    add_pointed(alloc, file, text, at, said.as_str(), bytes)
}

/// What a note says of its place, by the text from there on: of a fault that ends a loop its name first.
fn said(alloc: Global, note: &Note, rest: &[u8]) -> Result<String, AllocError>
    ensures { IfOk result (λ said. string_bytes said ≡ codes "note: " ++ spec.note_says note.now rest.now) }
{
    let words = words_at(note.kind(), rest);
    if !is_of_loop(note.kind()) {
        return format!(in alloc; "note: {words}");
    }
    let fault = note.text();
    format!(in alloc; "note: no scope of the loop handles {fault}: {words}")
}

/// Whether it is noted of a fault that ends a loop.
fn is_of_loop(kind: NoteKind) -> bool
    ensures { result ≡ spec.is_of_loop kind }
{
    matches!(kind, NoteKind::EndsLoop | NoteKind::CallEndsLoop)
}

/// What a person reads of a note, by the text from its place on.
fn words_at(kind: NoteKind, rest: &[u8]) -> &'static str
    ensures { result.now ≡ spec.words_at kind rest.now }
{
    if is_of_handler(kind) && begins_with("default", rest) {
        return "`default` is the name of a fault here, and nothing throws it: name each fault";
    }
    words(kind)
}

/// Whether it is noted of a handler.
fn is_of_handler(kind: NoteKind) -> bool
    ensures { result ≡ spec.is_of_handler kind }
{
    matches!(kind, NoteKind::Unthrown)
}

/// What a person reads of a note.
fn words(kind: NoteKind) -> &'static str
    ensures { result.now ≡ spec.note_words kind }
{
    match kind {
        NoteKind::Uncaught => "nothing catches this fault, and no `throws` names it",
        NoteKind::UncaughtInLoop => "nothing catches this fault, and no `throws` names it",
        NoteKind::EndsService => "nothing catches this fault: it ends the loop and the service",
        NoteKind::EndsLoop => "where this or another expression has no value, the loop ends",
        NoteKind::CallEndsLoop => "where this or another call comes back with it, the loop ends",
        NoteKind::Unthrown => "nothing throws the fault of this handler",
        NoteKind::NothingUndone => {
            "no scope of this name has a handler under `this`: nothing is undone"
        }
        NoteKind::Unsent => "nothing is sent to this port",
        NoteKind::OwnSocket => {
            "this file listens here itself and can't take its own call: give that service a `local://` port too"
        }
        NoteKind::Unset => "this variable is read, and nothing sets it",
        NoteKind::Unread => "this variable is set, and nothing reads it",
        NoteKind::Forgotten => "this variable is set, and nothing reads it",
        NoteKind::TreeCut => "`=` takes the root alone: `<<` copies what stands below it too",
        NoteKind::LiteralCut => {
            "`=` sets the root alone: `<<` copies the members of the literal too"
        }
        NoteKind::Unanswered => "this is answered, and nothing sets it",
        NoteKind::NotShared => {
            "each session has a `global` of its own: a single service keeps what sessions share"
        }
        NoteKind::AnsweredOnce => {
            "this is answered once, and later callers are refused: write `execution: concurrent`, or a loop"
        }
    }
}
