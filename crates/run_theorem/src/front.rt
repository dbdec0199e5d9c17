ghost use Rattle.std.specs.Prelude.{◌≡◌, ◌<◌, length, Bool, true, false, MatchResult};
ghost use Rattle.behaviour_tree.specs.PartsView.{parts_of};
ghost use Rattle.behaviour_tree.specs.Data.{ProgramParts};
ghost use Rattle.run_theorem.specs.Exchange.{Exchange};
ghost use Rattle.run_theorem.specs.Calls.{After, Asks, IsDue, IsQuiet, Notes, Tells};

use behaviour_tree::{Outcome, Program};
use office_core::Posting;
use std::alloc::AllocError;

/// What a front has when it is asked for a posting: one; none yet, where something moved or nothing did; or none any
/// more.
#[derive(Drop)]
pub enum Next {
    Posting(Posting),
    Moved,
    NotYet,
    End,
}

/// The side of a run on which postings come in, and to which their answers and the notes go. It is for one program:
/// each call is handed the same.
pub trait Front {
    /// That this may have passed between a front and the run of a program, since the front was what it was first. What
    /// it says of the front's own outside holds at the end of each run, whatever the run knows of it.
    ghost exchanged: { ProgramParts → Self → Self → Exchange → Type 0 };

    /// Whether memory ran out in a call of it: then it answers want of memory from then on.
    ghost spent: { Self → Bool };

    /// The next posting. A front that ended or halted is asked nothing more, and one that found nothing is told nothing
    /// before it is asked again. After want of memory nothing has passed.
    fn next(&mut self, program: &Program) -> Result<Next, AllocError>
        requires some { 0 < length (parts_of program.now).services }
        ensures came { (first : Self) (before : Exchange) → exchanged (parts_of program.now) first self.old before
            → before.received.ended ≡ false → before.sent.halted ≡ false → IsQuiet before → MatchResult result
            (λ next. After (exchanged (parts_of program.now) first self.new)
            (Asks (parts_of program.now) next before))
            (λ _. exchanged (parts_of program.now) first self.new before) }
        // It goes well only where memory never ran out before.
        ensures memory { MatchResult result
            (λ _. (spent self.old ≡ false) × (spent self.new ≡ false))
            (λ _. spent self.new ≡ true) };

    /// Tells what the calls of the posting of a place came to, in order. Places are counted from 0. After want of
    /// memory nothing was told.
    fn answer(
        &mut self,
        program: &Program,
        place: u32,
        outcomes: &[Outcome],
    ) -> Result<(), AllocError>
        ensures told { (first : Self) (before : Exchange) → exchanged (parts_of program.now) first self.old before
            → IsDue place outcomes.now before → MatchResult result
            (λ _. After (exchanged (parts_of program.now) first self.new) (Tells place outcomes.now before))
            (λ _. exchanged (parts_of program.now) first self.new before) }
        // It goes well only where memory never ran out before.
        ensures memory { MatchResult result
            (λ _. (spent self.old ≡ false) × (spent self.new ≡ false))
            (λ _. spent self.new ≡ true) };

    /// Notes a text. A front that an answer halted is noted nothing.
    fn note(&mut self, text: &[u8])
        ensures noted { (parts : ProgramParts) (first : Self) (before : Exchange)
            → exchanged parts first self.old before
            → before.sent.notes_failed ≡ before.sent.halted
            → After (exchanged parts first self.new) (Notes text.now before) }
        ensures memory { spent self.new ≡ spent self.old };

    /// Whether what is written failed, so that nothing more is written.
    fn halted(&self) -> bool
        ensures { (parts : ProgramParts) (first : Self) (now : Exchange) → exchanged parts first self.now now
            → result ≡ now.sent.halted };
}
