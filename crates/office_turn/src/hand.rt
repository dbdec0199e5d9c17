//! The calls on the office in the hand of a seat that has the turn.
ghost use Rattle.std.specs.Prelude.{◌≡◌, true, None, Some, IfOk, OnErr, OnOk, is_some, nat_eq, nat_le};
ghost use Rattle.office_core.specs.declared.history.Act.TheVariants as act;
ghost use Rattle.office_core.specs.declared.history.Placed.TheVariants as at;
ghost use Rattle.office_core.specs.Answers.{answers, is_open};
ghost use Rattle.office_core.specs.Boxes.{took};
ghost use Rattle.office_core.specs.Calls as calls;
ghost use Rattle.office_core.specs.Calls.{next_call};
ghost use Rattle.office_core.specs.Keys.{first};
ghost use Rattle.office_core.specs.Legal.{bound, has_variable, is_acting, is_at_work, is_collectable, is_fetched, is_wanted};
ghost use Rattle.office_core.specs.Limits.{first_worker, run_of};
ghost use Rattle.office_core.specs.Past.{is_running};
ghost use Rattle.office_core.specs.Route.{post_reply, route};
ghost use Rattle.office_plain.specs.Entries.{adopt_entry, answer_entry, collect_entry, entry, fetch_entry, post_entry};
ghost use Rattle.office_plain.specs.Entries.{replied_entry, take_entry};
ghost use Rattle.office_plain.specs.Replies.{birth_of, is_port, next_mail, next_outgoing};
ghost use Rattle.office_sharing.specs.Named.{parts_by};
ghost use Rattle.office_turn.specs.Calls.{closing_entry};
ghost use Rattle.office_turn.specs.Hands.{Did, HasOffice, past_in_hand};

use crate::office::SharedOffice;
use crate::pass::Chair;
use behaviour_tree::Outcome;
use correlation::BindReply;
use jolie_trees::{Root, Tree};
use office_core::{Birth, Mail, OutKind, Outgoing, PostReply, Posted};
use office_sharing::Naming;
use reqresp_book::Origin;
use std::alloc::AllocError;

impl<N: Naming> SharedOffice<N> {
    /// Adopts a session at the office in the hand.
    pub(crate) fn adopt_in_hand(
        &self,
        seat: &mut Chair,
        number: u32,
    ) -> Result<Option<Birth>, AllocError>
        requires table { seat.old.table_id ≡ N.table }
        requires hand { HasOffice (parts_by N.program) seat.old.me }
        requires running { is_running (past_in_hand (parts_by N.program) seat.old.me) ≡ true }
        ensures table { seat.new.table_id ≡ seat.old.table_id }
        ensures view { seat.new.me.0 ≡ seat.old.me.0 }
        ensures reply { IfOk result
            (λ x. x ≡ birth_of (run_of (parts_by N.program)) (past_in_hand (parts_by N.program) seat.old.me) number) }
        ensures did { IfOk result (λ x. Did (parts_by N.program) (adopt_entry number x) seat.old.me seat.new.me) }
        ensures err { OnErr result (Did (parts_by N.program) None seat.old.me seat.new.me) }
    {
        let office = seat.slot_mut(&self.table.shared, 0);
        office.adopt(number)
    }

    /// Takes a message from the office in the hand.
    pub(crate) fn take_in_hand(
        &self,
        seat: &mut Chair,
        number: u32,
        ops: &[u32],
    ) -> Result<Option<Mail>, AllocError>
        requires table { seat.old.table_id ≡ N.table }
        requires hand { HasOffice (parts_by N.program) seat.old.me }
        requires acts { is_acting (run_of (parts_by N.program)) (past_in_hand (parts_by N.program) seat.old.me)
            number ≡ true }
        ensures table { seat.new.table_id ≡ seat.old.table_id }
        ensures view { seat.new.me.0 ≡ seat.old.me.0 }
        ensures reply { IfOk result
            (λ x. x ≡ next_mail (past_in_hand (parts_by N.program) seat.old.me) number ops.now) }
        ensures did { IfOk result (λ x. Did (parts_by N.program) (take_entry number x) seat.old.me seat.new.me) }
        ensures err { OnErr result (Did (parts_by N.program) None seat.old.me seat.new.me) }
    {
        let office = seat.slot_mut(&self.table.shared, 0);
        office.take(number, ops)
    }

    /// Takes an answer from the office in the hand.
    pub(crate) fn take_answer_in_hand(
        &self,
        seat: &mut Chair,
        number: u32,
        call: u32,
    ) -> Result<Option<Outcome>, AllocError>
        requires table { seat.old.table_id ≡ N.table }
        requires hand { HasOffice (parts_by N.program) seat.old.me }
        requires acts { is_acting (run_of (parts_by N.program)) (past_in_hand (parts_by N.program) seat.old.me)
            number ≡ true }
        requires wanted { is_wanted (past_in_hand (parts_by N.program) seat.old.me) number call ≡ true }
        ensures table { seat.new.table_id ≡ seat.old.table_id }
        ensures view { seat.new.me.0 ≡ seat.old.me.0 }
        ensures reply { IfOk result
            (λ x. x ≡ calls.result (run_of (parts_by N.program)) (past_in_hand (parts_by N.program) seat.old.me)
            number call) }
        ensures did { IfOk result
            (λ x. Did (parts_by N.program) (answer_entry number call x) seat.old.me seat.new.me) }
        ensures err { OnErr result (Did (parts_by N.program) None seat.old.me seat.new.me) }
    {
        let office = seat.slot_mut(&self.table.shared, 0);
        office.take_answer(number, call)
    }

    /// Binds a variable at the office in the hand.
    pub(crate) fn bind_in_hand(
        &self,
        seat: &mut Chair,
        number: u32,
        variable: u32,
        value: Root,
    ) -> Result<BindReply, AllocError>
        requires table { seat.old.table_id ≡ N.table }
        requires hand { HasOffice (parts_by N.program) seat.old.me }
        requires acts { is_acting (run_of (parts_by N.program)) (past_in_hand (parts_by N.program) seat.old.me)
            number ≡ true }
        requires has { has_variable (run_of (parts_by N.program)) (past_in_hand (parts_by N.program) seat.old.me)
            number variable ≡ true }
        ensures table { seat.new.table_id ≡ seat.old.table_id }
        ensures view { seat.new.me.0 ≡ seat.old.me.0 }
        ensures reply { IfOk result
            (λ x. Some x ≡ bound (run_of (parts_by N.program)) (past_in_hand (parts_by N.program) seat.old.me) number
            variable value) }
        ensures did { IfOk result
            (λ x. Did (parts_by N.program) (Some (entry number (act.Bind variable value x))) seat.old.me
            seat.new.me) }
        ensures err { OnErr result (Did (parts_by N.program) None seat.old.me seat.new.me) }
    {
        let office = seat.slot_mut(&self.table.shared, 0);
        office.bind(number, variable, value)
    }

    /// Answers a message at the office in the hand.
    pub(crate) fn reply_in_hand(
        &self,
        seat: &mut Chair,
        number: u32,
        message: u32,
        outcome: Outcome,
    ) -> Result<(), AllocError>
        requires table { seat.old.table_id ≡ N.table }
        requires hand { HasOffice (parts_by N.program) seat.old.me }
        requires acts { is_acting (run_of (parts_by N.program)) (past_in_hand (parts_by N.program) seat.old.me)
            number ≡ true }
        requires took { took (past_in_hand (parts_by N.program) seat.old.me) number message ≡ true }
        requires open { is_open (run_of (parts_by N.program)) (past_in_hand (parts_by N.program) seat.old.me) message
            ≡ true }
        ensures table { seat.new.table_id ≡ seat.old.table_id }
        ensures view { seat.new.me.0 ≡ seat.old.me.0 }
        ensures did { OnOk result (Did (parts_by N.program)
            (Some (entry number (act.Reply message outcome)))
            seat.old.me seat.new.me) }
        ensures err { OnErr result (Did (parts_by N.program) None seat.old.me seat.new.me) }
    {
        let office = seat.slot_mut(&self.table.shared, 0);
        office.reply(number, message, outcome)
    }

    /// Sends a call at the office in the hand.
    pub(crate) fn send_in_hand(
        &self,
        seat: &mut Chair,
        number: u32,
        call: u32,
        port: u32,
        op: u32,
        value: Tree,
        wants: bool,
    ) -> Result<(), AllocError>
        requires table { seat.old.table_id ≡ N.table }
        requires hand { HasOffice (parts_by N.program) seat.old.me }
        requires acts { is_acting (run_of (parts_by N.program)) (past_in_hand (parts_by N.program) seat.old.me)
            number ≡ true }
        requires next { nat_eq call (next_call (past_in_hand (parts_by N.program) seat.old.me) number) ≡ true }
        ensures table { seat.new.table_id ≡ seat.old.table_id }
        ensures view { seat.new.me.0 ≡ seat.old.me.0 }
        ensures did { OnOk result (Did (parts_by N.program)
            (replied_entry (run_of (parts_by N.program)) (past_in_hand (parts_by N.program) seat.old.me) number
            (act.Send call port op value wants at.Out))
            seat.old.me seat.new.me) }
        ensures err { OnErr result (Did (parts_by N.program) None seat.old.me seat.new.me) }
    {
        let office = seat.slot_mut(&self.table.shared, 0);
        office.send(number, call, port, op, value, wants)
    }

    /// Ends a session at the office in the hand.
    pub(crate) fn end_in_hand(&self, seat: &mut Chair, number: u32) -> Result<(), AllocError>
        requires table { seat.old.table_id ≡ N.table }
        requires hand { HasOffice (parts_by N.program) seat.old.me }
        requires acts { is_acting (run_of (parts_by N.program)) (past_in_hand (parts_by N.program) seat.old.me)
            number ≡ true }
        ensures table { seat.new.table_id ≡ seat.old.table_id }
        ensures view { seat.new.me.0 ≡ seat.old.me.0 }
        ensures did { OnOk result (Did (parts_by N.program) (Some (entry number act.End)) seat.old.me seat.new.me) }
        ensures err { OnErr result (Did (parts_by N.program) None seat.old.me seat.new.me) }
    {
        let office = seat.slot_mut(&self.table.shared, 0);
        office.end(number)
    }

    /// Posts a message at the office in the hand.
    pub(crate) fn post_in_hand(
        &self,
        seat: &mut Chair,
        number: u32,
        origin: Origin,
        posted: Posted,
    ) -> Result<PostReply, AllocError>
        requires table { seat.old.table_id ≡ N.table }
        requires hand { HasOffice (parts_by N.program) seat.old.me }
        requires works { is_at_work (past_in_hand (parts_by N.program) seat.old.me) number ≡ true }
        requires port { is_port origin ≡ true }
        ensures table { seat.new.table_id ≡ seat.old.table_id }
        ensures view { seat.new.me.0 ≡ seat.old.me.0 }
        ensures reply { IfOk result
            (λ x. x ≡ post_reply (past_in_hand (parts_by N.program) seat.old.me)
            (route (run_of (parts_by N.program)) (past_in_hand (parts_by N.program) seat.old.me) posted)) }
        ensures did { IfOk result
            (λ x. Did (parts_by N.program) (post_entry number origin posted x) seat.old.me seat.new.me) }
        ensures err { OnErr result (Did (parts_by N.program) None seat.old.me seat.new.me) }
    {
        let office = seat.slot_mut(&self.table.shared, 0);
        office.post(number, origin, posted)
    }

    /// Collects an answer from the office in the hand.
    pub(crate) fn collect_in_hand(
        &self,
        seat: &mut Chair,
        number: u32,
        message: u32,
    ) -> Result<Option<Outcome>, AllocError>
        requires table { seat.old.table_id ≡ N.table }
        requires hand { HasOffice (parts_by N.program) seat.old.me }
        requires worker { nat_le first_worker number ≡ true }
        requires collectable { is_collectable (past_in_hand (parts_by N.program) seat.old.me) number message ≡ true }
        ensures table { seat.new.table_id ≡ seat.old.table_id }
        ensures view { seat.new.me.0 ≡ seat.old.me.0 }
        ensures reply { IfOk result
            (λ x. x ≡ first (answers (run_of (parts_by N.program)) (past_in_hand (parts_by N.program) seat.old.me)
            message)) }
        ensures did { IfOk result
            (λ x. Did (parts_by N.program) (collect_entry number message x) seat.old.me seat.new.me) }
        ensures err { OnErr result (Did (parts_by N.program) None seat.old.me seat.new.me) }
    {
        let office = seat.slot_mut(&self.table.shared, 0);
        office.collect(number, message)
    }

    /// Fetches a call from the office in the hand.
    pub(crate) fn fetch_in_hand(
        &self,
        seat: &mut Chair,
        number: u32,
        kind: OutKind,
    ) -> Result<Option<Outgoing>, AllocError>
        requires table { seat.old.table_id ≡ N.table }
        requires hand { HasOffice (parts_by N.program) seat.old.me }
        requires works { is_at_work (past_in_hand (parts_by N.program) seat.old.me) number ≡ true }
        ensures table { seat.new.table_id ≡ seat.old.table_id }
        ensures view { seat.new.me.0 ≡ seat.old.me.0 }
        ensures reply { IfOk result
            (λ x. x ≡ next_outgoing (run_of (parts_by N.program)) (past_in_hand (parts_by N.program) seat.old.me)
            kind) }
        ensures did { IfOk result (λ x. Did (parts_by N.program) (fetch_entry number x) seat.old.me seat.new.me) }
        ensures err { OnErr result (Did (parts_by N.program) None seat.old.me seat.new.me) }
    {
        let office = seat.slot_mut(&self.table.shared, 0);
        office.fetch(number, kind)
    }

    /// Brings an outcome to the office in the hand.
    pub(crate) fn answered_in_hand(
        &self,
        seat: &mut Chair,
        number: u32,
        session: u32,
        call: u32,
        outcome: Outcome,
    ) -> Result<(), AllocError>
        requires table { seat.old.table_id ≡ N.table }
        requires hand { HasOffice (parts_by N.program) seat.old.me }
        requires works { is_at_work (past_in_hand (parts_by N.program) seat.old.me) number ≡ true }
        requires fetched { is_fetched (past_in_hand (parts_by N.program) seat.old.me) number session call ≡ true }
        ensures table { seat.new.table_id ≡ seat.old.table_id }
        ensures view { seat.new.me.0 ≡ seat.old.me.0 }
        ensures did { OnOk result (Did (parts_by N.program)
            (Some (entry number (act.Answered session call outcome)))
            seat.old.me seat.new.me) }
        ensures err { OnErr result (Did (parts_by N.program) None seat.old.me seat.new.me) }
    {
        let office = seat.slot_mut(&self.table.shared, 0);
        office.answered(number, session, call, outcome)
    }

    /// Notes the end of input at the office in the hand, once.
    pub(crate) fn close_in_hand(&self, seat: &mut Chair, number: u32)
        requires table { seat.old.table_id ≡ N.table }
        requires hand { HasOffice (parts_by N.program) seat.old.me }
        requires works { is_at_work (past_in_hand (parts_by N.program) seat.old.me) number ≡ true }
        ensures table { seat.new.table_id ≡ seat.old.table_id }
        ensures view { seat.new.me.0 ≡ seat.old.me.0 }
        ensures did { Did (parts_by N.program) (closing_entry (past_in_hand (parts_by N.program) seat.old.me) number)
            seat.old.me seat.new.me }
    {
        let office = seat.slot_mut(&self.table.shared, 0);
        office.close(number);
    }

    /// Whether the session would take a message of these operations from the office in the hand.
    pub(crate) fn has_mail_in_hand(
        &self,
        seat: &mut Chair,
        number: u32,
        ops: &[u32],
    ) -> Result<bool, AllocError>
        requires table { seat.old.table_id ≡ N.table }
        requires hand { HasOffice (parts_by N.program) seat.old.me }
        requires acts { is_acting (run_of (parts_by N.program)) (past_in_hand (parts_by N.program) seat.old.me)
            number ≡ true }
        ensures table { seat.new.table_id ≡ seat.old.table_id }
        ensures same { seat.new.me ≡ seat.old.me }
        ensures found { IfOk result
            (λ b. b ≡ is_some (next_mail (past_in_hand (parts_by N.program) seat.old.me) number ops.now)) }
    {
        let office = seat.slot_mut(&self.table.shared, 0);
        match office.ready() {
            Ok(()) => Ok(office.has_mail(number, ops)),
            Err(failed) => Err(failed),
        }
    }

    /// Whether the session would take the answer of its call from the office in the hand.
    pub(crate) fn has_answer_in_hand(
        &self,
        seat: &mut Chair,
        number: u32,
        call: u32,
    ) -> Result<bool, AllocError>
        requires table { seat.old.table_id ≡ N.table }
        requires hand { HasOffice (parts_by N.program) seat.old.me }
        requires acts { is_acting (run_of (parts_by N.program)) (past_in_hand (parts_by N.program) seat.old.me)
            number ≡ true }
        requires wanted { is_wanted (past_in_hand (parts_by N.program) seat.old.me) number call ≡ true }
        ensures table { seat.new.table_id ≡ seat.old.table_id }
        ensures same { seat.new.me ≡ seat.old.me }
        ensures found { IfOk result
            (λ b. b ≡ is_some (calls.result (run_of (parts_by N.program))
            (past_in_hand (parts_by N.program) seat.old.me) number call)) }
    {
        let office = seat.slot_mut(&self.table.shared, 0);
        match office.ready() {
            Ok(()) => Ok(office.has_answer(number, call)),
            Err(failed) => Err(failed),
        }
    }
}
