//! The calls of the one worker.

ghost use Rattle.std.specs.Prelude.{◌≡◌, [], ◌∷◌, true, IfOk, OnOk};
ghost use Rattle.office_core.specs.declared.history.Act.TheVariants as act;
ghost use Rattle.office_core.specs.declared.outgoing.OutKind.TheVariants as outs;
ghost use Rattle.office_core.specs.Answers.{answers};
ghost use Rattle.office_core.specs.Keys.{first};
ghost use Rattle.office_core.specs.Legal.{is_collectable, is_fetched};
ghost use Rattle.office_core.specs.Limits.{first_worker};
ghost use Rattle.office_core.specs.Route.{post_reply, route};
ghost use Rattle.office_plain.specs.Entries.{collect_entry, entry, fetch_entry, post_entry};
ghost use Rattle.office_plain.specs.Replies.{next_outgoing};
ghost use Rattle.office_plain.specs.View.{past_in, setting_of};
ghost use Rattle.reqresp_book.specs.declared.origin.Origin.TheVariants as origins;
ghost use Rattle.run_cells.specs.RunStates.{Stays, list_of};
ghost use Rattle.test_seats.specs.Seats.{IsSeated, state_in};

use crate::opening::WORKER;
use crate::seat::Seat;
use behaviour_tree::Outcome;
use office_core::{OutKind, Outgoing, PostReply, Posted};
use reqresp_book::Origin;
use std::alloc::AllocError;

impl Seat<'_> {
    /// Posts a message that comes in at a port, as call 0 of posting 0, or says why it is refused.
    pub fn post(&mut self, posted: Posted) -> Result<PostReply, AllocError>
        requires { IsSeated self.old }
        ensures reply { IfOk result
            (λ r. r ≡ post_reply (past_in self.old.office)
            (route (setting_of self.old.office) (past_in self.old.office) posted)) }
        ensures added { IfOk result
            (λ r. Stays (state_in self.old) (state_in self.new)
            (list_of (post_entry first_worker (origins.Port 0 0) posted r))) }
        ensures seated { OnOk result (IsSeated self.new) }
    {
        let origin = Origin::Port {
            posting: 0,
            index: 0,
        };
        self.office.post(WORKER, origin, posted)
    }

    /// The answer of a message that was posted; none where it has none yet.
    pub fn collect(&mut self, message: u32) -> Result<Option<Outcome>, AllocError>
        requires seated { IsSeated self.old }
        requires collectable { is_collectable (past_in self.old.office) first_worker message ≡ true }
        ensures answer { IfOk result
            (λ o. o ≡ first (answers (setting_of self.old.office) (past_in self.old.office) message)) }
        ensures added { IfOk result
            (λ o. Stays (state_in self.old) (state_in self.new) (list_of (collect_entry first_worker message o))) }
        ensures seated { OnOk result (IsSeated self.new) }
    {
        self.office.collect(WORKER, message)
    }

    /// The oldest call that goes out to a service elsewhere and was not fetched yet; none where none is.
    pub fn fetch(&mut self) -> Result<Option<Outgoing>, AllocError>
        requires { IsSeated self.old }
        ensures call { IfOk result
            (λ c. c ≡ next_outgoing (setting_of self.old.office) (past_in self.old.office) outs.Remote) }
        ensures added { IfOk result
            (λ c. Stays (state_in self.old) (state_in self.new) (list_of (fetch_entry first_worker c))) }
        ensures seated { OnOk result (IsSeated self.new) }
    {
        self.office.fetch(WORKER, OutKind::Remote)
    }

    /// Brings the outcome of a call of the session that was fetched.
    pub fn bring(&mut self, call: u32, outcome: Outcome) -> Result<(), AllocError>
        requires seated { IsSeated self.old }
        requires fetched { is_fetched (past_in self.old.office) first_worker 0 call ≡ true }
        ensures added { OnOk result (Stays (state_in self.old) (state_in self.new)
            (entry first_worker (act.Answered 0 call outcome) ∷ [])) }
        ensures seated { OnOk result (IsSeated self.new) }
    {
        self.office.answered(WORKER, 0, call, outcome)
    }
}
