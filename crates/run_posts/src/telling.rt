//! Postings whose calls all have their outcomes are answered, in order.

ghost use Rattle.std.specs.Prelude.{◌≡◌, map, MatchResult, IfOk, OnOk};
ghost use Rattle.std.specs.List.{filter};
ghost use Rattle.behaviour_tree.specs.PartsView.{parts_of};
ghost use Rattle.run_posts.specs.CallStates as specs;
ghost use Rattle.run_posts.specs.CallStates.{is_open, outcomes_in, told_of, wait_of, waits};
ghost use Rattle.run_posts.specs.Telling.{Answers, AnswersNone, TellsAll, TellsOn, TellsSome};

use crate::pending::{CallState, Pending, Pendings};
use behaviour_tree::{Outcome, Program};
use run_theorem::Front;
use std::alloc::{AllocError, Global};
use std::mem;

impl Pendings {
    /// Answers the postings whose calls all have their outcomes, in order. After want of memory the first of these were
    /// answered, and all that waited are gone.
    pub fn tell_finished<F: Front>(
        &mut self,
        program: &Program,
        front: &mut F,
    ) -> Result<(), AllocError>
        ensures waiting { OnOk result (waits self.new ≡ filter is_open (waits self.old)) }
        ensures postings { self.new.postings ≡ self.old.postings }
        ensures told { MatchResult result
            (λ _. TellsOn (F.exchanged (parts_of program.now)) front.old front.new (waits self.old)
            (TellsAll (map told_of (filter specs.is_finished (waits self.old)))))
            (λ _. TellsOn (F.exchanged (parts_of program.now)) front.old front.new (waits self.old)
            (TellsSome (map told_of (filter specs.is_finished (waits self.old))))) }
    {
        let waiting = mem::replace(&mut self.waiting, Vec::new(self.alloc));
        self.waiting = tell_each(self.alloc, program, front, waiting)?;
        Ok(())
    }
}

/// Answers those of the postings whose calls all have their outcomes, and gives the others back.
fn tell_each<F: Front>(
    alloc: Global,
    program: &Program,
    front: &mut F,
    waiting: Vec<Pending>,
) -> Result<Vec<Pending>, AllocError>
    ensures waiting { IfOk result (λ left. map wait_of left.items ≡ filter is_open (map wait_of waiting.items)) }
    ensures told { MatchResult result
        (λ _. TellsOn (F.exchanged (parts_of program.now)) front.old front.new (map wait_of waiting.items)
        (TellsAll (map told_of (filter specs.is_finished (map wait_of waiting.items)))))
        (λ _. TellsOn (F.exchanged (parts_of program.now)) front.old front.new (map wait_of waiting.items)
        (TellsSome (map told_of (filter specs.is_finished (map wait_of waiting.items))))) }
{
    let mut left = Vec::new(alloc);
    for posting in waiting {
        if is_finished(&posting) {
            tell(alloc, program, front, posting)?;
        } else {
            left.push(posting)?;
        }
    }
    Ok(left)
}

/// Answers a posting whose calls all have their outcomes.
fn tell<F: Front>(
    alloc: Global,
    program: &Program,
    front: &mut F,
    posting: Pending,
) -> Result<(), AllocError>
    ensures { MatchResult result
        (λ _. Answers (F.exchanged (parts_of program.now)) front.old front.new (wait_of posting))
        (λ _. AnswersNone (F.exchanged (parts_of program.now)) front.old front.new (wait_of posting)) }
{
    let place = posting.place;
    let outcomes = outcomes_of(alloc, posting.call_states)?;
    front.answer(program, place, outcomes.as_slice())
}

/// Whether the outcome of each call of a posting is known.
fn is_finished(posting: &Pending) -> bool
    ensures { result ≡ specs.is_finished (wait_of posting.now) }
{
    posting
        .call_states
        .iter()
        .all(|call_state| is_known(call_state))
}

/// Whether the outcome of a call is known.
fn is_known(call_state: &CallState) -> bool
    ensures { result ≡ specs.is_known call_state.now }
{
    matches!(call_state, CallState::Known(_))
}

/// The outcomes of calls that all have theirs.
fn outcomes_of(alloc: Global, call_states: Vec<CallState>) -> Result<Vec<Outcome>, AllocError>
    ensures { IfOk result (λ outcomes. outcomes.items ≡ outcomes_in call_states.items) }
{
    let mut outcomes = Vec::new(alloc);
    for call_state in call_states {
        if let CallState::Known(outcome) = call_state {
            outcomes.push(outcome)?;
        }
    }
    Ok(outcomes)
}
