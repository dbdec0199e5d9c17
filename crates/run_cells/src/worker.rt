//! The calls of the one worker.
ghost use Rattle.std.specs.Prelude.{◌≡◌, ◌∷◌, ◌++◌, [], true, IfOk, OnOk, OnErr};
ghost use Rattle.office_core.specs.declared.history.Act.TheVariants as act;
ghost use Rattle.office_core.specs.Answers.{answers};
ghost use Rattle.office_core.specs.Keys.{first};
ghost use Rattle.office_core.specs.Legal.{IsLegal, is_collectable, is_fetched};
ghost use Rattle.office_core.specs.Limits.{first_worker};
ghost use Rattle.office_core.specs.Route.{post_reply, route};
ghost use Rattle.office_plain.specs.Entries.{collect_entry, entry, fetch_entry, post_entry};
ghost use Rattle.office_plain.specs.Replies.{is_port, next_outgoing};
ghost use Rattle.run_cells.specs.RunStates.{AtWork, IsOurs, Stays, closing, list_of, past_in};
ghost use Rattle.run_cells.specs.View.{run_state, state};

use crate::cells::Cells;
use behaviour_tree::Outcome;
use office_core::{OutKind, Outgoing, PostReply, Posted};
use reqresp_book::Origin;
use session_turn::Seating;
use std::alloc::AllocError;

/// The actor of the one worker.
pub const WORKER: u32 = 4_096;

impl<S: Seating> Cells<'_, S> {
    /// Posts a message that comes in at a port, or says why it is refused.
    pub fn post(&mut self, origin: Origin, posted: Posted) -> Result<PostReply, AllocError>
        requires work { AtWork (run_state S.Session self.old) }
        requires port { is_port origin ≡ true }
        ensures program { self.new.program ≡ self.old.program }
        ensures reply { IfOk result
            (λ r. r ≡ post_reply (past_in (state S.Session self.old))
            (route (state S.Session self.old).setting (past_in (state S.Session self.old)) posted)) }
        ensures added { IfOk result
            (λ r. Stays (state S.Session self.old) (state S.Session self.new)
            (list_of (post_entry first_worker origin posted r))) }
        ensures unchanged { OnErr result (Stays (state S.Session self.old) (state S.Session self.new) []) }
        ensures work { OnOk result (AtWork (run_state S.Session self.new)) }
    {
        self.office.post(WORKER, origin, posted)
    }

    /// The answer of a message that was posted; none where it has none yet.
    pub fn collect(&mut self, message: u32) -> Result<Option<Outcome>, AllocError>
        requires ours { IsOurs (run_state S.Session self.old) }
        requires collectable { is_collectable (past_in (state S.Session self.old)) first_worker message ≡ true }
        ensures program { self.new.program ≡ self.old.program }
        ensures answer { IfOk result
            (λ o. o ≡ first (answers (state S.Session self.old).setting (past_in (state S.Session self.old)) message)) }
        ensures added { IfOk result
            (λ o. Stays (state S.Session self.old) (state S.Session self.new)
            (list_of (collect_entry first_worker message o))) }
        ensures unchanged { OnErr result (Stays (state S.Session self.old) (state S.Session self.new) []) }
        ensures ours { IsOurs (run_state S.Session self.new) }
        ensures work { AtWork (run_state S.Session self.old) → OnOk result (AtWork (run_state S.Session self.new)) }
    {
        self.office.collect(WORKER, message)
    }

    /// The oldest call of a kind that goes out and that was not fetched yet; none where none is.
    pub fn fetch(&mut self, kind: OutKind) -> Result<Option<Outgoing>, AllocError>
        requires work { AtWork (run_state S.Session self.old) }
        ensures program { self.new.program ≡ self.old.program }
        ensures call { IfOk result
            (λ c. c ≡ next_outgoing (state S.Session self.old).setting (past_in (state S.Session self.old)) kind) }
        ensures added { IfOk result
            (λ c. Stays (state S.Session self.old) (state S.Session self.new) (list_of (fetch_entry first_worker c))) }
        ensures unchanged { OnErr result (Stays (state S.Session self.old) (state S.Session self.new) []) }
        ensures work { OnOk result (AtWork (run_state S.Session self.new)) }
    {
        self.office.fetch(WORKER, kind)
    }

    /// Brings the outcome of a call that was fetched.
    pub fn answered(&mut self, session: u32, call: u32, outcome: Outcome) -> Result<(), AllocError>
        requires work { AtWork (run_state S.Session self.old) }
        requires fetched { is_fetched (past_in (state S.Session self.old)) first_worker session call ≡ true }
        ensures program { self.new.program ≡ self.old.program }
        ensures added { OnOk result (Stays (state S.Session self.old) (state S.Session self.new)
            (entry first_worker (act.Answered session call outcome) ∷ [])) }
        ensures unchanged { OnErr result (Stays (state S.Session self.old) (state S.Session self.new) []) }
        ensures work { OnOk result (AtWork (run_state S.Session self.new)) }
    {
        self.office.answered(WORKER, session, call, outcome)
    }

    /// Notes the end of input, and stops the run: each open request is answered so.
    pub fn stop(&mut self)
        requires work { AtWork (run_state S.Session self.old) }
        ensures program { self.new.program ≡ self.old.program }
        ensures added { Stays (state S.Session self.old) (state S.Session self.new)
            (closing (past_in (state S.Session self.old)) ++ entry first_worker act.Stop ∷ []) }
        ensures ours { IsOurs (run_state S.Session self.new) }
        ensures legal { IsLegal (state S.Session self.new).setting (state S.Session self.new).history }
    {
        self.office.close(WORKER);
        self.office.stop(WORKER);
    }
}
