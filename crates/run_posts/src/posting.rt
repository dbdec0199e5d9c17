//! Postings are posted, call by call.

ghost use Rattle.std.specs.Prelude.{◌≡◌, ◌∷◌, ◌++◌, ◌<◌, [], suc, IfOk, OnOk};
ghost use Rattle.run_theorem.specs.Calls.{most_postings};
ghost use Rattle.run_cells.specs.RunStates.{AtWork, Stays, past_in};
ghost use Rattle.run_cells.specs.View.{run_state, state};
ghost use Rattle.run_posts.specs.CallStates as specs;
ghost use Rattle.run_posts.specs.CallStates.{call_entries, state_of_call, call_states_of, posted_entries, waits};

use crate::pending::{CallState, Pending, Pendings};
use behaviour_tree::Outcome;
use office_core::{CallIn, PostReply, Posted, Posting};
use office_plain::numbered;
use reqresp_book::Origin;
use run_cells::Cells;
use session_turn::Seating;
use std::alloc::{AllocError, Global};

impl Pendings {
    /// Posts the calls of the next posting, in order. There are fewer than 4,294,967,295 before.
    pub fn post<S: Seating>(
        &mut self,
        cells: &mut Cells<'_, S>,
        posting: &Posting,
    ) -> Result<(), AllocError>
        requires work { AtWork (run_state S.Session cells.old) }
        requires room { self.old.postings < most_postings }
        ensures program { cells.new.program ≡ cells.old.program }
        ensures work { OnOk result (AtWork (run_state S.Session cells.new)) }
        ensures posted { OnOk result (Stays (state S.Session cells.old) (state S.Session cells.new)
            (posted_entries (state S.Session cells.old).setting (past_in (state S.Session cells.old))
            (self.old.postings, 0) posting.now.calls)) }
        ensures waiting { OnOk result (waits self.new ≡ waits self.old ++ (record {
          place = self.old.postings;
          call_states = call_states_of (state S.Session cells.old).setting (past_in (state S.Session cells.old))
              (self.old.postings, 0)
              posting.now.calls;
        }) ∷ []) }
        ensures postings { OnOk result (self.new.postings ≡ suc self.old.postings) }
    {
        let place = self.postings;
        let call_states = post_calls(self.alloc, cells, place, posting.calls.as_slice())?;
        self.waiting.push(Pending { place, call_states })?;
        self.postings = place + 1;
        Ok(())
    }
}

/// Posts the calls of a posting, in order.
fn post_calls<S: Seating>(
    alloc: Global,
    cells: &mut Cells<'_, S>,
    posting: u32,
    calls: &[CallIn],
) -> Result<Vec<CallState>, AllocError>
    requires work { AtWork (run_state S.Session cells.old) }
    ensures program { cells.new.program ≡ cells.old.program }
    ensures work { OnOk result (AtWork (run_state S.Session cells.new)) }
    ensures posted { OnOk result (Stays (state S.Session cells.old) (state S.Session cells.new)
        (posted_entries (state S.Session cells.old).setting (past_in (state S.Session cells.old)) (posting, 0)
        calls.now)) }
    ensures call_states { IfOk result
        (λ call_states. call_states.items
        ≡ call_states_of (state S.Session cells.old).setting (past_in (state S.Session cells.old)) (posting, 0)
        calls.now) }
{
    let mut call_states = Vec::new(alloc);
    let mut index = 0;
    for call in calls {
        let number = numbered(index)?;
        let call_state = post_call(cells, posting, number, call)?;
        call_states.push(call_state)?;
        index += 1;
    }
    Ok(call_states)
}

/// Posts a call, unless it was answered before.
#[tactic(auto, using(crate::proofs::Added::posted_one, crate::proofs::Added::posted_call_state, crate::proofs::Added::nothing_added))]
fn post_call<S: Seating>(
    cells: &mut Cells<'_, S>,
    posting: u32,
    index: u32,
    call: &CallIn,
) -> Result<CallState, AllocError>
    requires work { AtWork (run_state S.Session cells.old) }
    ensures program { cells.new.program ≡ cells.old.program }
    ensures work { OnOk result (AtWork (run_state S.Session cells.new)) }
    ensures posted { OnOk result (Stays (state S.Session cells.old) (state S.Session cells.new)
        (call_entries (state S.Session cells.old).setting (past_in (state S.Session cells.old)) (posting, index)
        call.now)) }
    ensures call_state { IfOk result
        (λ call_state. call_state ≡ state_of_call (state S.Session cells.old).setting
        (past_in (state S.Session cells.old)) call.now) }
{
    match call {
        CallIn::Post { posted } => {
            let copy = copy_of(posted)?;
            let reply = cells.post(Origin::Port { posting, index }, copy)?;
            Ok(call_state_of(reply))
        }
        CallIn::Answered { outcome } => Ok(CallState::Known(outcome.copied()?)),
    }
}

/// What becomes of a call by the reply to its post.
fn call_state_of(reply: PostReply) -> CallState
    ensures { result ≡ specs.call_state_of reply }
{
    match reply {
        PostReply::Accepted(message) => CallState::Message(message),
        PostReply::Refused(reason) => CallState::Known(Outcome::Refused(reason)),
    }
}

/// A message to post, once more.
fn copy_of(posted: &Posted) -> Result<Posted, AllocError>
    ensures { IfOk result (λ copy. copy ≡ posted.now) }
{
    let op = posted.op.copied()?;
    let value = posted.value.copied()?;
    Ok(Posted {
        service: posted.service,
        op,
        value,
    })
}
