//! The answers of messages are collected as far as they are there.

ghost use Rattle.std.specs.Prelude.{◌≡◌, ◌∷◌, [], IfOk, OnOk, map};
ghost use Rattle.run_order_laws.specs.Uncollected.{AreUncollected};
ghost use Rattle.run_cells.specs.RunStates.{AtWork, IsOurs, Stays, past_in};
ghost use Rattle.run_cells.specs.View.{run_state, state};
ghost use Rattle.run_posts.specs.CallStates.{
  all_collected,
  collected,
  collected_in,
  messages_in,
  messages_of,
  settled,
  settled_by,
  settled_in,
  wait_of,
  waits,
};

use crate::pending::{CallState, Pending, Pendings};
use behaviour_tree::Outcome;
use run_cells::Cells;
use session_turn::Seating;
use std::alloc::{AllocError, Global};
use std::mem;

impl Pendings {
    /// Collects the answers that are there. After want of memory the postings that waited are gone.
    pub fn collect_all<S: Seating>(&mut self, cells: &mut Cells<'_, S>) -> Result<(), AllocError>
        requires ours { IsOurs (run_state S.Session cells.old) }
        requires collectable { AreUncollected (past_in (state S.Session cells.old)) (messages_of (waits self.old)) }
        ensures program { cells.new.program ≡ cells.old.program }
        ensures ours { IsOurs (run_state S.Session cells.new) }
        ensures work { AtWork (run_state S.Session cells.old) → OnOk result (AtWork (run_state S.Session cells.new)) }
        ensures collected { OnOk result (Stays (state S.Session cells.old) (state S.Session cells.new)
            (all_collected (state S.Session cells.old).setting (past_in (state S.Session cells.old))
            (waits self.old))) }
        ensures waiting { OnOk result (waits self.new
            ≡ map (settled_in (state S.Session cells.old).setting (past_in (state S.Session cells.old)))
            (waits self.old)) }
        ensures postings { self.new.postings ≡ self.old.postings }
    {
        let waiting = mem::replace(&mut self.waiting, Vec::new(self.alloc));
        self.waiting = gather(self.alloc, cells, waiting)?;
        Ok(())
    }
}

/// Collects the answers of postings, as far as they are there.
fn gather<S: Seating>(
    alloc: Global,
    cells: &mut Cells<'_, S>,
    waiting: Vec<Pending>,
) -> Result<Vec<Pending>, AllocError>
    requires ours { IsOurs (run_state S.Session cells.old) }
    requires collectable { AreUncollected (past_in (state S.Session cells.old))
        (messages_of (map wait_of waiting.items)) }
    ensures program { cells.new.program ≡ cells.old.program }
    ensures ours { IsOurs (run_state S.Session cells.new) }
    ensures work { AtWork (run_state S.Session cells.old) → OnOk result (AtWork (run_state S.Session cells.new)) }
    ensures collected { OnOk result (Stays (state S.Session cells.old) (state S.Session cells.new)
        (all_collected (state S.Session cells.old).setting (past_in (state S.Session cells.old))
        (map wait_of waiting.items))) }
    ensures settled { IfOk result
        (λ all. map wait_of all.items ≡ map
        (settled_in (state S.Session cells.old).setting (past_in (state S.Session cells.old)))
        (map wait_of waiting.items)) }
{
    let mut all = Vec::new(alloc);
    for pending in waiting {
        let place = pending.place;
        let call_states = settle_all(alloc, cells, pending.call_states)?;
        all.push(Pending { place, call_states })?;
    }
    Ok(all)
}

/// Collects the answers of the messages of a posting, as far as they are there.
fn settle_all<S: Seating>(
    alloc: Global,
    cells: &mut Cells<'_, S>,
    call_states: Vec<CallState>,
) -> Result<Vec<CallState>, AllocError>
    requires ours { IsOurs (run_state S.Session cells.old) }
    requires collectable { AreUncollected (past_in (state S.Session cells.old)) (messages_in call_states.items) }
    ensures program { cells.new.program ≡ cells.old.program }
    ensures ours { IsOurs (run_state S.Session cells.new) }
    ensures work { AtWork (run_state S.Session cells.old) → OnOk result (AtWork (run_state S.Session cells.new)) }
    ensures collected { OnOk result (Stays (state S.Session cells.old) (state S.Session cells.new)
        (collected_in (state S.Session cells.old).setting (past_in (state S.Session cells.old)) call_states.items)) }
    ensures settled { IfOk result
        (λ all. all.items ≡ map (settled (state S.Session cells.old).setting (past_in (state S.Session cells.old)))
        call_states.items) }
{
    let mut all = Vec::new(alloc);
    for call_state in call_states {
        let now = settle(cells, call_state)?;
        all.push(now)?;
    }
    Ok(all)
}

/// Collects the answer of a message, if it is there.
#[tactic(auto, using(crate::proofs::Settling::collected_one, crate::proofs::Settling::settled_one, crate::proofs::Settling::collects_it))]
fn settle<S: Seating>(
    cells: &mut Cells<'_, S>,
    call_state: CallState,
) -> Result<CallState, AllocError>
    requires ours { IsOurs (run_state S.Session cells.old) }
    requires collectable { AreUncollected (past_in (state S.Session cells.old)) (messages_in (call_state ∷ [])) }
    ensures program { cells.new.program ≡ cells.old.program }
    ensures ours { IsOurs (run_state S.Session cells.new) }
    ensures work { AtWork (run_state S.Session cells.old) → OnOk result (AtWork (run_state S.Session cells.new)) }
    ensures collected { OnOk result (Stays (state S.Session cells.old) (state S.Session cells.new)
        (collected (state S.Session cells.old).setting (past_in (state S.Session cells.old)) call_state)) }
    ensures settled { IfOk result
        (λ now. now ≡ settled (state S.Session cells.old).setting (past_in (state S.Session cells.old)) call_state) }
{
    match call_state {
        CallState::Message(message) => {
            let answer = cells.collect(message)?;
            Ok(answered(message, answer))
        }
        CallState::Known(outcome) => Ok(CallState::Known(outcome)),
    }
}

/// What becomes of a call by the answer of its message, if there is one.
fn answered(message: u32, answer: Option<Outcome>) -> CallState
    ensures { result ≡ settled_by message answer }
{
    match answer {
        Some(outcome) => CallState::Known(outcome),
        None => CallState::Message(message),
    }
}
