ghost use Rattle.std.specs.Prelude.{◌≡◌, false, IfOk, string_bytes, map};
ghost use Rattle.behaviour_tree.specs.Data.{ProgramParts};
ghost use Rattle.behaviour_tree.specs.PartsView.{parts_of};
ghost use Rattle.run_theorem.specs.Exchange.{Exchange, IsNew};
ghost use Rattle.run_lines.specs.Reading.{came_by, Fails};
ghost use Rattle.run_lines.specs.Told.{line_told};
ghost use Rattle.run_lines.specs.Exchanged.{HasExchanged};
ghost use Rattle.run_lines.specs.Keeping.{sides_in, IsEmpty};

use crate::kept::Kept;
use crate::response::line_to;
use crate::writing::write_kept;
use behaviour_tree::{Outcome, Program};
use jsonrpc_text::Read;
use outside_traits::{Sink, Source};
use outside_writing::write_cut;
use run_theorem::{Front, Next};
use sqlite_items::Items;
use std::alloc::{AllocError, Global};

/// A front over the lines of a source. The answers go to an output, and the notes to a sink of their own. What it keeps
/// is lent to it, as they are: a value that owned memory would not tell its lender what became of what it was lent.
#[derive(Drop)]
pub struct LineFront<'a, S, K, N> {
    alloc: Global,
    source: &'a mut S,
    output: &'a mut K,
    notes: &'a mut N,
    kept: &'a mut Kept,
}

impl<'a, S: Source, K: Sink, N: Sink> LineFront<'a, S, K, N> {
    pub fn new(
        alloc: Global,
        source: &'a mut S,
        output: &'a mut K,
        notes: &'a mut N,
        kept: &'a mut Kept,
    ) -> LineFront<'a, S, K, N>
        requires empty { IsEmpty kept.old }
        ensures source { result.source.now ≡ source.old }
        ensures output { result.output.now ≡ output.old }
        ensures notes { result.notes.now ≡ notes.old }
        ensures kept { result.kept.now ≡ kept.old }
        ensures same_source { result.source.ghost_name ≡ source.entry.ghost_name }
        ensures same_output { result.output.ghost_name ≡ output.entry.ghost_name }
        ensures same_notes { result.notes.ghost_name ≡ notes.entry.ghost_name }
        ensures same_kept { result.kept.ghost_name ≡ kept.entry.ghost_name }
        ensures begun { (parts : ProgramParts) → (d : Exchange) × IsNew d × HasExchanged parts
            (sides_in result.kept.now (S.told result.source.now).unread (S.told result.source.now).faults
            (K.told result.output.now) (N.told result.notes.now))
            (sides_in result.kept.now (S.told result.source.now).unread (S.told result.source.now).faults
            (K.told result.output.now) (N.told result.notes.now))
            d }
    {
        LineFront {
            alloc,
            source,
            output,
            notes,
            kept,
        }
    }
}

impl<'a, S: Source, K: Sink, N: Sink> Front for LineFront<'a, S, K, N> {
    ghost exchanged = { λ parts first now d.
        (now.source.ghost_name ≡ first.source.ghost_name)
        × (now.output.ghost_name ≡ first.output.ghost_name)
        × (now.notes.ghost_name ≡ first.notes.ghost_name)
        × (now.kept.ghost_name ≡ first.kept.ghost_name)
        × (first.kept.now.reader.failed ≡ false
        → Fails now.kept.now.reader.failed (S.told first.source.now).faults (S.told now.source.now).faults)
        × HasExchanged parts
        (sides_in first.kept.now (S.told first.source.now).unread (S.told first.source.now).faults
        (K.told first.output.now) (N.told first.notes.now))
        (sides_in now.kept.now (S.told now.source.now).unread (S.told now.source.now).faults (K.told now.output.now)
        (N.told now.notes.now))
        d };

    ghost spent = { λ f. f.kept.now.spent };

    fn next(&mut self, _program: &Program) -> Result<Next, AllocError> {
        if self.kept.spent() {
            return Err(AllocError);
        }
        let came = self.kept.reader.next(self.alloc, self.source);
        let wanting = came.is_err();
        self.kept.spent = wanting;
        came
    }

    fn answer(
        &mut self,
        program: &Program,
        place: u32,
        outcomes: &[Outcome],
    ) -> Result<(), AllocError> {
        if self.kept.spent() {
            return Err(AllocError);
        }
        if self.kept.halted() {
            return Ok(());
        }
        self.kept.spent = true;
        let line = line_at(
            self.alloc,
            program,
            &self.kept.reader.reads,
            place,
            outcomes,
        )?;
        let cut = write_kept(self.output, line.as_bytes(), &mut self.kept.written)?;
        self.kept.halted = cut;
        self.kept.spent = false;
        Ok(())
    }

    fn note(&mut self, text: &[u8]) {
        if self.kept.halted {
            return;
        }
        let cut = write_cut(self.notes, text);
        self.kept.halted = cut;
    }

    fn halted(&self) -> bool {
        self.kept.halted
    }
}

/// The line that answers the posting of a place, empty where nothing is sent or none is there.
fn line_at(
    alloc: Global,
    program: &Program,
    reads: &Items<Read>,
    place: u32,
    outcomes: &[Outcome],
) -> Result<String, AllocError>
    ensures { IfOk result
        (λ line. string_bytes line ≡ line_told (parts_of program.now) (map came_by reads.now)
        (record { place = place; outcomes = outcomes.now })) }
{
    match reads.get(place as usize) {
        None => Ok(String::new(alloc)),
        Some(read) => line_to(alloc, program, read, outcomes),
    }
}
