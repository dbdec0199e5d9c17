//! The calls of workers, each through the worker's pass.
ghost use Rattle.std.specs.Prelude.{◌≡◌, true, None, Some, IfNone, IfOk, OnErr, OnOk, nat_le};
ghost use Rattle.office_core.specs.declared.history.Act.TheVariants as act;
ghost use Rattle.office_core.specs.Answers.{answers};
ghost use Rattle.office_core.specs.Keys.{first};
ghost use Rattle.office_core.specs.Legal.{is_collectable, is_fetched};
ghost use Rattle.office_core.specs.Limits.{first_worker};
ghost use Rattle.office_core.specs.Route.{post_reply, route};
ghost use Rattle.office_plain.specs.Entries.{collect_entry, entry, fetch_entry, post_entry};
ghost use Rattle.office_plain.specs.Replies.{is_port, next_outgoing};
ghost use Rattle.office_sharing.specs.Named.{parts_by};
ghost use Rattle.office_turn.specs.Calls.{Called, HoldsSeen, Made, Saw, Stays, closing_entry};

use crate::office::SharedOffice;
use crate::pass::Pass;
use behaviour_tree::Outcome;
use office_core::{OutKind, Outgoing, PostReply, Posted};
use office_sharing::Naming;
use reqresp_book::Origin;
use std::alloc::AllocError;
use std::sync::Wait;

impl<N: Naming> SharedOffice<N> {
    /// Takes a message that comes in at a port, or says why it is refused.
    pub fn post<R: Wait>(
        &self,
        rt: &R,
        pass: &mut Pass<N>,
        origin: Origin,
        posted: Posted,
    ) -> Result<PostReply, AllocError>
        requires calls { pass.old.may_call ≡ true }
        requires worker { nat_le first_worker pass.old.number ≡ true }
        requires port { is_port origin ≡ true }
        ensures told { IfOk result (λ x. Called (parts_by N.program) pass.old pass.new
            (λ w past. x ≡ post_reply past (route w past posted))
            (λ w past. post_entry pass.old.number origin posted x)) }
        ensures err { OnErr result (Saw (parts_by N.program) pass.old pass.new) }
    {
        let before = self.take_turn(rt, &mut pass.seat);
        let reply = self.post_in_hand(&mut pass.seat, pass.number, origin, posted);
        pass.seen = self.finish(&mut pass.seat, before);
        reply
    }

    /// The answer of a message that came in at a port; none where it has none yet.
    pub fn collect<R: Wait>(
        &self,
        rt: &R,
        pass: &mut Pass<N>,
        message: u32,
    ) -> Result<Option<Outcome>, AllocError>
        requires calls { pass.old.may_call ≡ true }
        requires worker { nat_le first_worker pass.old.number ≡ true }
        requires collectable { Stays (parts_by N.program) pass.old
            (λ w past. is_collectable past pass.old.number message) }
        ensures told { IfOk result (λ x. Called (parts_by N.program) pass.old pass.new
            (λ w past. x ≡ first (answers w past message))
            (λ w past. collect_entry pass.old.number message x)) }
        ensures none { IfOk result (λ x. IfNone x (HoldsSeen (parts_by N.program) pass.new
            (λ w past. first (answers w past message) ≡ None))) }
        ensures err { OnErr result (Saw (parts_by N.program) pass.old pass.new) }
    {
        let before = self.take_turn(rt, &mut pass.seat);
        let answer = self.collect_in_hand(&mut pass.seat, pass.number, message);
        pass.seen = self.finish(&mut pass.seat, before);
        answer
    }

    /// The oldest call of a kind that goes out and that nobody fetched yet; none where none is.
    pub fn fetch<R: Wait>(
        &self,
        rt: &R,
        pass: &mut Pass<N>,
        kind: OutKind,
    ) -> Result<Option<Outgoing>, AllocError>
        requires calls { pass.old.may_call ≡ true }
        requires worker { nat_le first_worker pass.old.number ≡ true }
        ensures told { IfOk result (λ x. Called (parts_by N.program) pass.old pass.new
            (λ w past. x ≡ next_outgoing w past kind)
            (λ w past. fetch_entry pass.old.number x)) }
        ensures none { IfOk result (λ x. IfNone x (HoldsSeen (parts_by N.program) pass.new
            (λ w past. next_outgoing w past kind ≡ None))) }
        ensures err { OnErr result (Saw (parts_by N.program) pass.old pass.new) }
    {
        let before = self.take_turn(rt, &mut pass.seat);
        let outgoing = self.fetch_in_hand(&mut pass.seat, pass.number, kind);
        pass.seen = self.finish(&mut pass.seat, before);
        outgoing
    }

    /// The worker that fetched a call brings its outcome.
    pub fn answered<R: Wait>(
        &self,
        rt: &R,
        pass: &mut Pass<N>,
        session: u32,
        call: u32,
        outcome: Outcome,
    ) -> Result<(), AllocError>
        requires calls { pass.old.may_call ≡ true }
        requires worker { nat_le first_worker pass.old.number ≡ true }
        requires fetched { Stays (parts_by N.program) pass.old
            (λ w past. is_fetched past pass.old.number session call) }
        ensures told { OnOk result (Made (parts_by N.program) pass.old pass.new
            (λ w past. Some (entry pass.old.number (act.Answered session call outcome)))) }
        ensures err { OnErr result (Saw (parts_by N.program) pass.old pass.new) }
    {
        let before = self.take_turn(rt, &mut pass.seat);
        let brought = self.answered_in_hand(&mut pass.seat, pass.number, session, call, outcome);
        pass.seen = self.finish(&mut pass.seat, before);
        brought
    }

    /// Notes the end of input, once.
    pub fn close<R: Wait>(&self, rt: &R, pass: &mut Pass<N>)
        requires calls { pass.old.may_call ≡ true }
        requires worker { nat_le first_worker pass.old.number ≡ true }
        ensures told { Made (parts_by N.program) pass.old pass.new (λ w past. closing_entry past pass.old.number) }
    {
        let before = self.take_turn(rt, &mut pass.seat);
        self.close_in_hand(&mut pass.seat, pass.number);
        pass.seen = self.finish(&mut pass.seat, before);
    }
}
