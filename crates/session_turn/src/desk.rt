ghost use Rattle.std.specs.Prelude.{◌≡◌, ℕ, true, List, IfOk, MatchOption, OnOk, OnErr, is_some};
ghost use Rattle.behaviour_tree.specs.declared.words.Need.TheVariants as need;
ghost use Rattle.office_core.specs.declared.history.Act.TheVariants as act;
ghost use Rattle.office_core.specs.declared.history.Entry.{Entry as Row};
ghost use Rattle.office_core.specs.declared.history.Placed.{Placed as Place};
ghost use Rattle.office_core.specs.Boxes.{queue};
ghost use Rattle.office_core.specs.Calls.{result as outcome_in};
ghost use Rattle.office_core.specs.Keys.{first};
ghost use Rattle.session_turn.specs.Asking.{may_call as may};
ghost use Rattle.session_turn.specs.Seen.{Called, FoundNone, Grew, HasNone, Office, Took, past_at, seat};

use behaviour_tree::Outcome;
use correlation::BindReply;
use jolie_trees::{Root, Tree};
use office_core::Mail;
use std::alloc::AllocError;

/// The office, as a session calls it. Between two calls others may call it too.
pub trait Desk {
    /// What a caller has seen of the office.
    type Pass;

    /// What the office works by, and whether nobody else calls it.
    ghost office: { Self → Office };

    /// The entries that were seen.
    ghost seen: { Self.Pass → List Row };

    /// The pass is that of the session of this number at this desk, and may call.
    ghost is_pass: { Self → Self.Pass → ℕ → Type 0 };

    /// Takes the first message of these operations that waits for the session.
    fn take(
        &self,
        pass: &mut Self::Pass,
        session: u32,
        ops: &[u32],
    ) -> Result<Option<Mail>, AllocError>
        requires pass { is_pass self.now pass.old session }
        requires may { may (seat (office self.now) session) (seen pass.old) (need.Take ops.now) ≡ true }
        ensures pass { OnOk result (is_pass self.now pass.new session) }
        ensures taken { IfOk result (λ o. MatchOption o
            (FoundNone (seat (office self.now) session) ops.now (seen pass.old) (seen pass.new))
            (Took (seat (office self.now) session) ops.now (seen pass.old) (seen pass.new))) }
        ensures err { OnErr result (Grew (seat (office self.now) session) (seen pass.old) (seen pass.new)) };

    /// Takes the answer of a call of the session.
    fn take_answer(
        &self,
        pass: &mut Self::Pass,
        session: u32,
        call: u32,
    ) -> Result<Option<Outcome>, AllocError>
        requires pass { is_pass self.now pass.old session }
        requires may { may (seat (office self.now) session) (seen pass.old) (need.Answer call) ≡ true }
        ensures pass { OnOk result (is_pass self.now pass.new session) }
        ensures taken { IfOk result (λ o. MatchOption o
            (HasNone (seat (office self.now) session) call (seen pass.old) (seen pass.new))
            (λ outcome. Called (seat (office self.now) session) (seen pass.old) (seen pass.new)
            (act.Answer call outcome))) }
        ensures err { OnErr result (Grew (seat (office self.now) session) (seen pass.old) (seen pass.new)) };

    /// Binds a correlation variable of the session.
    fn bind(
        &self,
        pass: &mut Self::Pass,
        session: u32,
        variable: u32,
        value: Root,
    ) -> Result<BindReply, AllocError>
        requires pass { is_pass self.now pass.old session }
        requires may { may (seat (office self.now) session) (seen pass.old) (need.Bind variable value) ≡ true }
        ensures pass { OnOk result (is_pass self.now pass.new session) }
        ensures bound { IfOk result
            (λ reply. Called (seat (office self.now) session) (seen pass.old) (seen pass.new)
            (act.Bind variable value reply)) }
        ensures err { OnErr result (Grew (seat (office self.now) session) (seen pass.old) (seen pass.new)) };

    /// Answers a message that the session took.
    fn reply(
        &self,
        pass: &mut Self::Pass,
        session: u32,
        message: u32,
        outcome: Outcome,
    ) -> Result<(), AllocError>
        requires pass { is_pass self.now pass.old session }
        requires may { may (seat (office self.now) session) (seen pass.old) (need.Reply message outcome) ≡ true }
        ensures pass { OnOk result (is_pass self.now pass.new session) }
        ensures replied { OnOk result (Called (seat (office self.now) session) (seen pass.old) (seen pass.new)
            (act.Reply message outcome)) }
        ensures err { OnErr result (Grew (seat (office self.now) session) (seen pass.old) (seen pass.new)) };

    /// Sends a message to an operation of a port of the session's service.
    fn send(
        &self,
        pass: &mut Self::Pass,
        session: u32,
        call: u32,
        port: u32,
        op: u32,
        value: Tree,
        wants: bool,
    ) -> Result<(), AllocError>
        requires pass { is_pass self.now pass.old session }
        requires may { may (seat (office self.now) session) (seen pass.old) (need.Send call port op value wants)
            ≡ true }
        ensures pass { OnOk result (is_pass self.now pass.new session) }
        ensures sent { OnOk result ((placed : Place)
            × Called (seat (office self.now) session) (seen pass.old) (seen pass.new)
            (act.Send call port op value wants placed)) }
        ensures err { OnErr result (Grew (seat (office self.now) session) (seen pass.old) (seen pass.new)) };

    /// Ends the session.
    fn end(&self, pass: &mut Self::Pass, session: u32) -> Result<(), AllocError>
        requires pass { is_pass self.now pass.old session }
        requires may { may (seat (office self.now) session) (seen pass.old) need.Finish ≡ true }
        ensures pass { OnOk result (is_pass self.now pass.new session) }
        ensures ended { OnOk result (Called (seat (office self.now) session) (seen pass.old) (seen pass.new)
            act.End) }
        ensures err { OnErr result (Grew (seat (office self.now) session) (seen pass.old) (seen pass.new)) };

    /// Whether a message of these operations waits for the session.
    fn has_mail(&self, pass: &mut Self::Pass, session: u32, ops: &[u32]) -> Result<bool, AllocError>
        requires pass { is_pass self.now pass.old session }
        requires may { may (seat (office self.now) session) (seen pass.old) (need.Take ops.now) ≡ true }
        ensures pass { is_pass self.now pass.new session }
        ensures grew { Grew (seat (office self.now) session) (seen pass.old) (seen pass.new) }
        ensures exact { IfOk result (λ b. b ≡ is_some (first
            (queue (past_at (seat (office self.now) session) (seen pass.new)) session ops.now))) };

    /// Whether a call of the session has an outcome.
    fn has_answer(&self, pass: &mut Self::Pass, session: u32, call: u32) -> Result<bool, AllocError>
        requires pass { is_pass self.now pass.old session }
        requires may { may (seat (office self.now) session) (seen pass.old) (need.Answer call) ≡ true }
        ensures pass { is_pass self.now pass.new session }
        ensures grew { Grew (seat (office self.now) session) (seen pass.old) (seen pass.new) }
        ensures exact { IfOk result (λ b. b ≡ is_some (outcome_in (office self.now).setting
            (past_at (seat (office self.now) session) (seen pass.new)) session call)) };
}
