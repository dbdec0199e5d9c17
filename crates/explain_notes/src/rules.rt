//! The notes of one kind.

ghost use Rattle.std.specs.Prelude.{◌≡◌, [], ◌++◌, OnOk, false};
ghost use Rattle.explain_notes.specs.Mentions.{names_in};
ghost use Rattle.explain_notes.specs.Notes as spec;
ghost use Rattle.explain_notes.specs.Rules.{is_met};

use crate::declared::texts_met;
use crate::facts::Facts;
use crate::kind::{NoteKind, is_asked, is_sent};
use crate::list::Mention;
use crate::note::Note;
use check_base::Names;
use std::alloc::{AllocError, Global};

/// The notes of a kind, in a file of these facts.
pub fn add_notes<'a>(
    alloc: Global,
    kind: NoteKind,
    facts: &Facts<'a>,
    mentions: &[Mention<'a>],
    notes: &mut Vec<Note<'a>>,
) -> Result<(), AllocError>
    ensures { OnOk result (notes.new.items ≡ notes.old.items ++ spec.notes_for facts.now mentions.now kind) }
{
    let mut met = texts_met(alloc, kind, facts)?;
    add_met(kind, mentions, &mut met)?;
    add_by(alloc, kind, &mut met, facts.content(), mentions, notes)
}

/// The notes of a kind, by the texts that meet its names.
#[tactic(auto, using(crate::proofs::ByKind::of_the_unmet))]
fn add_by<'a>(
    alloc: Global,
    kind: NoteKind,
    met: &mut Names<'a>,
    content: &Names<'a>,
    mentions: &[Mention<'a>],
    notes: &mut Vec<Note<'a>>,
) -> Result<(), AllocError>
    ensures { OnOk result (notes.new.items ≡ notes.old.items ++ spec.notes_by kind met.old content.now mentions.now) }
{
    match kind {
        NoteKind::TreeCut => add_known(kind, met, mentions, notes),
        NoteKind::LiteralCut => add_known(kind, met, mentions, notes),
        NoteKind::OwnSocket => add_known(kind, met, mentions, notes),
        NoteKind::Unanswered => add_unanswered_after(content, met, mentions, notes),
        NoteKind::CallEndsLoop => add_called_after(alloc, met, mentions, notes),
        NoteKind::NotShared => add_first_known(kind, met, mentions, notes),
        NoteKind::AnsweredOnce => add_unmet(kind, met, mentions, notes),
        _ => add_unknown(kind, met, mentions, notes),
    }
}

/// The notes of a kind: of each mention in its roles whose name is known.
fn add_known<'a>(
    kind: NoteKind,
    known: &Names<'a>,
    mentions: &[Mention<'a>],
    notes: &mut Vec<Note<'a>>,
) -> Result<(), AllocError>
    ensures { OnOk result (notes.new.items ≡ notes.old.items ++ spec.notes_known kind known.now mentions.now) }
{
    for mention in mentions {
        if kind.is_of(mention.role()) && known.has(mention.text()) {
            notes.push(Note::new(kind, mention))?;
        }
    }
    Ok(())
}

/// The note of a kind: of the first mention in its roles whose name is known.
fn add_first_known<'a>(
    kind: NoteKind,
    known: &Names<'a>,
    mentions: &[Mention<'a>],
    notes: &mut Vec<Note<'a>>,
) -> Result<(), AllocError>
    ensures { OnOk result (notes.new.items ≡ notes.old.items ++ spec.first_known kind known.now mentions.now) }
{
    for mention in mentions {
        if kind.is_of(mention.role()) && known.has(mention.text()) {
            notes.push(Note::new(kind, mention))?;
            return Ok(());
        }
    }
    Ok(())
}

/// The notes of a kind: of each name in its roles, where no name is met.
#[tactic(auto, using(crate::proofs::ByKind::where_none_is_met, crate::proofs::ByKind::where_one_is_met))]
fn add_unmet<'a>(
    kind: NoteKind,
    met: &mut Names<'a>,
    mentions: &[Mention<'a>],
    notes: &mut Vec<Note<'a>>,
) -> Result<(), AllocError>
    ensures { OnOk result (notes.new.items ≡ notes.old.items ++ spec.notes_unmet kind met.old mentions.now) }
{
    if met.len() > 0 {
        return Ok(());
    }
    add_unknown(kind, met, mentions, notes)
}

/// Adds the names that stand in roles that meet them.
fn add_met<'a>(
    kind: NoteKind,
    mentions: &[Mention<'a>],
    known: &mut Names<'a>,
) -> Result<(), AllocError>
    ensures { OnOk result (known.new ≡ known.old ++ names_in (is_met kind) mentions.now) }
{
    for mention in mentions {
        if kind.is_met_by(mention.role()) {
            known.add(mention.text())?;
        }
    }
    Ok(())
}

/// The notes of a kind: of each name in its roles that is not known, which is known from there on.
fn add_unknown<'a>(
    kind: NoteKind,
    known: &mut Names<'a>,
    mentions: &[Mention<'a>],
    notes: &mut Vec<Note<'a>>,
) -> Result<(), AllocError>
    ensures { OnOk result (notes.new.items ≡ notes.old.items ++ spec.notes_after kind known.old mentions.now) }
{
    for mention in mentions {
        if kind.is_of(mention.role()) && !known.has(mention.text()) {
            known.add(mention.text())?;
            notes.push(Note::new(kind, mention))?;
        }
    }
    Ok(())
}

/// The answers that no body and nothing else sets.
fn add_unanswered_after<'a>(
    content: &Names<'a>,
    known: &Names<'a>,
    mentions: &[Mention<'a>],
    notes: &mut Vec<Note<'a>>,
) -> Result<(), AllocError>
    ensures { OnOk result (notes.new.items ≡ notes.old.items
        ++ spec.unanswered_after content.now known.now false mentions.now) }
{
    let mut asks = false;
    for mention in mentions {
        if is_asked(mention.role()) {
            asks = !content.has(mention.text());
        } else if NoteKind::Unanswered.is_of(mention.role()) && asks && !known.has(mention.text()) {
            notes.push(Note::new(NoteKind::Unanswered, mention))?;
        }
    }
    Ok(())
}

/// The faults that may end a loop by a call at one of these ports: of each that is not known, which is known from there
/// on.
fn add_called_after<'a>(
    alloc: Global,
    ports: &Names<'a>,
    mentions: &[Mention<'a>],
    notes: &mut Vec<Note<'a>>,
) -> Result<(), AllocError>
    ensures { OnOk result (notes.new.items ≡ notes.old.items
        ++ spec.called_after ports.now [] false mentions.now) }
{
    let mut known = Names::new(alloc);
    let mut there = false;
    for mention in mentions {
        if is_sent(mention.role()) {
            there = ports.has(mention.text());
        } else if NoteKind::CallEndsLoop.is_of(mention.role())
            && there
            && !known.has(mention.text())
        {
            known.add(mention.text())?;
            notes.push(Note::new(NoteKind::CallEndsLoop, mention))?;
        }
    }
    Ok(())
}
