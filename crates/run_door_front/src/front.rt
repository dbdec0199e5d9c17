ghost use Rattle.std.specs.Prelude.{◌≡◌, ◌<◌, length, true, nat_lt};
ghost use Rattle.std.specs.List.{list_all};
ghost use Rattle.behaviour_tree.specs.Data.{ProgramParts};
ghost use Rattle.run_theorem.specs.Exchange.{Exchange, IsNew};
ghost use Rattle.run_door_front.specs.Keeping.{IsEmpty, services_of};
ghost use Rattle.run_door_front.specs.Exchanged.{sides_of, MayHaveExchanged};

use crate::kept::Kept;
use behaviour_tree::{Outcome, Program};
use outside_doors::Door;
use outside_traits::Sink;
use outside_writing::write_cut;
use run_theorem::{Front, Next};
use std::alloc::{AllocError, Global};

/// A front over doors. Answers go out on the connections, and the notes have a sink of their own. What it keeps is lent
/// to it, as its notes are.
#[derive(Drop)]
pub struct DoorFront<'a, D: Door + Drop, N> {
    alloc: Global,
    kept: &'a mut Kept<D>,
    notes: &'a mut N,
}

impl<'a, D: Door + Drop, N: Sink> DoorFront<'a, D, N> {
    pub fn new(alloc: Global, kept: &'a mut Kept<D>, notes: &'a mut N) -> DoorFront<'a, D, N>
        requires empty { IsEmpty kept.old }
        ensures kept { result.kept.now ≡ kept.old }
        ensures notes { result.notes.now ≡ notes.old }
        ensures same_kept { result.kept.ghost_name ≡ kept.entry.ghost_name }
        ensures same_notes { result.notes.ghost_name ≡ notes.entry.ghost_name }
        ensures begun { (parts : ProgramParts)
            → list_all (λ n. nat_lt n (length parts.services)) (services_of result.kept.now) ≡ true
            → (d : Exchange) × IsNew d × MayHaveExchanged (λ line. (wire : D.W) × (line ≡ (D.W.told wire).wire)) parts
            (sides_of result.kept.now (N.told result.notes.now))
            (sides_of result.kept.now (N.told result.notes.now))
            d }
    {
        DoorFront { alloc, kept, notes }
    }
}

impl<'a, D: Door + Drop, N: Sink> Front for DoorFront<'a, D, N> {
    ghost exchanged = { λ parts first now d.
        (now.kept.ghost_name ≡ first.kept.ghost_name)
        × (now.notes.ghost_name ≡ first.notes.ghost_name)
        × MayHaveExchanged (λ line. (wire : D.W) × (line ≡ (D.W.told wire).wire)) parts
        (sides_of first.kept.now (N.told first.notes.now))
        (sides_of now.kept.now (N.told now.notes.now))
        d };

    ghost spent = { λ f. f.kept.now.spent };

    fn next(&mut self, _program: &Program) -> Result<Next, AllocError> {
        self.kept.next_posting(self.alloc)
    }

    fn answer(
        &mut self,
        program: &Program,
        place: u32,
        outcomes: &[Outcome],
    ) -> Result<(), AllocError> {
        if self.kept.spent() {
            return Err(AllocError);
        }
        if self.kept.halted() {
            return Ok(());
        }
        self.kept.answer(self.alloc, program, place, outcomes)
    }

    fn note(&mut self, text: &[u8]) {
        if self.kept.halted() {
            return;
        }
        if write_cut(self.notes, text) {
            self.kept.halt();
        }
    }

    fn halted(&self) -> bool {
        self.kept.halted()
    }
}
