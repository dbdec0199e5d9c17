//! The calls of sessions, each through the pass of the session's number.
ghost use Rattle.std.specs.Prelude.{◌≡◌, true, None, Some, IfNone, IfOk, OnErr, OnOk, is_some, nat_eq};
ghost use Rattle.office_core.specs.declared.history.Act.TheVariants as act;
ghost use Rattle.office_core.specs.declared.history.Placed.TheVariants as at;
ghost use Rattle.office_core.specs.Answers.{is_open};
ghost use Rattle.office_core.specs.Boxes.{took};
ghost use Rattle.office_core.specs.Calls as calls;
ghost use Rattle.office_core.specs.Calls.{next_call};
ghost use Rattle.office_core.specs.Legal.{bound, has_variable, is_acting, is_wanted};
ghost use Rattle.office_plain.specs.Entries.{adopt_entry, answer_entry, entry, replied_entry, take_entry};
ghost use Rattle.office_plain.specs.Replies.{birth_of, next_mail};
ghost use Rattle.office_sharing.specs.Named.{parts_by};
ghost use Rattle.office_turn.specs.Calls.{Called, HoldsSeen, Made, Saw, Stays};

use crate::office::SharedOffice;
use crate::pass::Pass;
use behaviour_tree::Outcome;
use correlation::BindReply;
use jolie_trees::{Root, Tree};
use office_core::{Birth, Mail};
use office_sharing::Naming;
use std::alloc::AllocError;
use std::sync::Wait;

impl<N: Naming> SharedOffice<N> {
    /// The birth of the session of the pass's number, once; none where it was not born, or was adopted.
    pub fn adopt<R: Wait>(&self, rt: &R, pass: &mut Pass<N>) -> Result<Option<Birth>, AllocError>
        requires calls { pass.old.may_call ≡ true }
        ensures told { IfOk result (λ x. Called (parts_by N.program) pass.old pass.new
            (λ w past. x ≡ birth_of w past pass.old.number)
            (λ w past. adopt_entry pass.old.number x)) }
        ensures none { IfOk result (λ x. IfNone x (HoldsSeen (parts_by N.program) pass.new
            (λ w past. birth_of w past pass.old.number ≡ None))) }
        ensures err { OnErr result (Saw (parts_by N.program) pass.old pass.new) }
    {
        let before = self.take_turn(rt, &mut pass.seat);
        let birth = self.adopt_in_hand(&mut pass.seat, pass.number);
        pass.seen = self.finish(&mut pass.seat, before);
        birth
    }

    /// The session takes the oldest message of these operations; none where none waits.
    pub fn take<R: Wait>(
        &self,
        rt: &R,
        pass: &mut Pass<N>,
        ops: &[u32],
    ) -> Result<Option<Mail>, AllocError>
        requires calls { pass.old.may_call ≡ true }
        requires acts { Stays (parts_by N.program) pass.old (λ w past. is_acting w past pass.old.number) }
        ensures told { IfOk result (λ x. Called (parts_by N.program) pass.old pass.new
            (λ w past. x ≡ next_mail past pass.old.number ops.now)
            (λ w past. take_entry pass.old.number x)) }
        ensures none { IfOk result (λ x. IfNone x (HoldsSeen (parts_by N.program) pass.new
            (λ w past. next_mail past pass.old.number ops.now ≡ None))) }
        ensures err { OnErr result (Saw (parts_by N.program) pass.old pass.new) }
    {
        let before = self.take_turn(rt, &mut pass.seat);
        let mail = self.take_in_hand(&mut pass.seat, pass.number, ops);
        pass.seen = self.finish(&mut pass.seat, before);
        mail
    }

    /// The session takes the answer of its call; none where it has none yet.
    pub fn take_answer<R: Wait>(
        &self,
        rt: &R,
        pass: &mut Pass<N>,
        call: u32,
    ) -> Result<Option<Outcome>, AllocError>
        requires calls { pass.old.may_call ≡ true }
        requires acts { Stays (parts_by N.program) pass.old (λ w past. is_acting w past pass.old.number) }
        requires wanted { Stays (parts_by N.program) pass.old (λ w past. is_wanted past pass.old.number call) }
        ensures told { IfOk result (λ x. Called (parts_by N.program) pass.old pass.new
            (λ w past. x ≡ calls.result w past pass.old.number call)
            (λ w past. answer_entry pass.old.number call x)) }
        ensures none { IfOk result (λ x. IfNone x (HoldsSeen (parts_by N.program) pass.new
            (λ w past. calls.result w past pass.old.number call ≡ None))) }
        ensures err { OnErr result (Saw (parts_by N.program) pass.old pass.new) }
    {
        let before = self.take_turn(rt, &mut pass.seat);
        let answer = self.take_answer_in_hand(&mut pass.seat, pass.number, call);
        pass.seen = self.finish(&mut pass.seat, before);
        answer
    }

    /// The session writes a correlation variable, unless it was written, or another session has the key.
    pub fn bind<R: Wait>(
        &self,
        rt: &R,
        pass: &mut Pass<N>,
        variable: u32,
        value: Root,
    ) -> Result<BindReply, AllocError>
        requires calls { pass.old.may_call ≡ true }
        requires acts { Stays (parts_by N.program) pass.old (λ w past. is_acting w past pass.old.number) }
        requires has { Stays (parts_by N.program) pass.old (λ w past. has_variable w past pass.old.number variable) }
        ensures told { IfOk result (λ x. Called (parts_by N.program) pass.old pass.new
            (λ w past. Some x ≡ bound w past pass.old.number variable value)
            (λ w past. Some (entry pass.old.number (act.Bind variable value x)))) }
        ensures err { OnErr result (Saw (parts_by N.program) pass.old pass.new) }
    {
        let before = self.take_turn(rt, &mut pass.seat);
        let reply = self.bind_in_hand(&mut pass.seat, pass.number, variable, value);
        pass.seen = self.finish(&mut pass.seat, before);
        reply
    }

    /// The session answers a message that it took.
    pub fn reply<R: Wait>(
        &self,
        rt: &R,
        pass: &mut Pass<N>,
        message: u32,
        outcome: Outcome,
    ) -> Result<(), AllocError>
        requires calls { pass.old.may_call ≡ true }
        requires acts { Stays (parts_by N.program) pass.old (λ w past. is_acting w past pass.old.number) }
        requires took { Stays (parts_by N.program) pass.old (λ w past. took past pass.old.number message) }
        requires open { Stays (parts_by N.program) pass.old (λ w past. is_open w past message) }
        ensures told { OnOk result (Made (parts_by N.program) pass.old pass.new
            (λ w past. Some (entry pass.old.number (act.Reply message outcome)))) }
        ensures err { OnErr result (Saw (parts_by N.program) pass.old pass.new) }
    {
        let before = self.take_turn(rt, &mut pass.seat);
        let replied = self.reply_in_hand(&mut pass.seat, pass.number, message, outcome);
        pass.seen = self.finish(&mut pass.seat, before);
        replied
    }

    /// The session sends a call: to a service of the program at once, or out.
    pub fn send<R: Wait>(
        &self,
        rt: &R,
        pass: &mut Pass<N>,
        call: u32,
        port: u32,
        op: u32,
        value: Tree,
        wants: bool,
    ) -> Result<(), AllocError>
        requires calls { pass.old.may_call ≡ true }
        requires acts { Stays (parts_by N.program) pass.old (λ w past. is_acting w past pass.old.number) }
        requires next { Stays (parts_by N.program) pass.old (λ w past. nat_eq call (next_call past pass.old.number)) }
        ensures told { OnOk result (Made (parts_by N.program) pass.old pass.new
            (λ w past. replied_entry w past pass.old.number (act.Send call port op value wants at.Out))) }
        ensures err { OnErr result (Saw (parts_by N.program) pass.old pass.new) }
    {
        let before = self.take_turn(rt, &mut pass.seat);
        let sent = self.send_in_hand(&mut pass.seat, pass.number, call, port, op, value, wants);
        pass.seen = self.finish(&mut pass.seat, before);
        sent
    }

    /// The session ends: open messages in its boxes are answered so, and its keys are free.
    pub fn end<R: Wait>(&self, rt: &R, pass: &mut Pass<N>) -> Result<(), AllocError>
        requires calls { pass.old.may_call ≡ true }
        requires acts { Stays (parts_by N.program) pass.old (λ w past. is_acting w past pass.old.number) }
        ensures told { OnOk result (Made (parts_by N.program) pass.old pass.new
            (λ w past. Some (entry pass.old.number act.End))) }
        ensures err { OnErr result (Saw (parts_by N.program) pass.old pass.new) }
    {
        let before = self.take_turn(rt, &mut pass.seat);
        let ended = self.end_in_hand(&mut pass.seat, pass.number);
        pass.seen = self.finish(&mut pass.seat, before);
        ended
    }

    /// Whether the session would take a message of these operations.
    pub fn has_mail<R: Wait>(
        &self,
        rt: &R,
        pass: &mut Pass<N>,
        ops: &[u32],
    ) -> Result<bool, AllocError>
        requires calls { pass.old.may_call ≡ true }
        requires acts { Stays (parts_by N.program) pass.old (λ w past. is_acting w past pass.old.number) }
        ensures saw { Saw (parts_by N.program) pass.old pass.new }
        ensures found { IfOk result (λ b. HoldsSeen (parts_by N.program) pass.new
            (λ w past. b ≡ is_some (next_mail past pass.old.number ops.now))) }
    {
        let before = self.take_turn(rt, &mut pass.seat);
        let found = self.has_mail_in_hand(&mut pass.seat, pass.number, ops);
        pass.seen = self.finish(&mut pass.seat, before);
        found
    }

    /// Whether the session would take the answer of its call.
    pub fn has_answer<R: Wait>(
        &self,
        rt: &R,
        pass: &mut Pass<N>,
        call: u32,
    ) -> Result<bool, AllocError>
        requires calls { pass.old.may_call ≡ true }
        requires acts { Stays (parts_by N.program) pass.old (λ w past. is_acting w past pass.old.number) }
        requires wanted { Stays (parts_by N.program) pass.old (λ w past. is_wanted past pass.old.number call) }
        ensures saw { Saw (parts_by N.program) pass.old pass.new }
        ensures found { IfOk result (λ b. HoldsSeen (parts_by N.program) pass.new
            (λ w past. b ≡ is_some (calls.result w past pass.old.number call))) }
    {
        let before = self.take_turn(rt, &mut pass.seat);
        let found = self.has_answer_in_hand(&mut pass.seat, pass.number, call);
        pass.seen = self.finish(&mut pass.seat, before);
        found
    }
}
