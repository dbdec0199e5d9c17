ghost use Rattle.office_sharing.specs.Named.{parts_by};

use behaviour_tree::Outcome;
use correlation::BindReply;
use jolie_trees::{Root, Tree};
use office_core::Mail;
use office_sharing::Naming;
use office_turn::{Pass, SharedOffice};
use session_turn::Desk;
use std::alloc::AllocError;
use std::sync::Wait;

/// The desk of an office that threads share. The pass of each session is that of its number, and a call may wait.
#[derive(Clone, Copy)]
pub struct SharedDesk<'a, N: Naming, R: Wait> {
    pub office: &'a SharedOffice<N>,
    pub rt: &'a R,
}

impl<'a, N: Naming, R: Wait> Desk for SharedDesk<'a, N, R> {
    ghost use Rattle.session_shared_turns.specs.Passes.{IsPass, office_shared};
    ghost use Rattle.office_sharing.specs.declared.view.View.{View};

    type Pass = Pass<N>;

    ghost office = { λ desk. office_shared (parts_by N.program) };

    ghost seen = { λ (pass : View). pass.seen };

    ghost is_pass = { λ desk (pass : View) session. IsPass pass session };

    fn take(
        &self,
        pass: &mut Pass<N>,
        session: u32,
        ops: &[u32],
    ) -> Result<Option<Mail>, AllocError> {
        self.office.take(self.rt, pass, ops)
    }

    fn take_answer(
        &self,
        pass: &mut Pass<N>,
        session: u32,
        call: u32,
    ) -> Result<Option<Outcome>, AllocError> {
        self.office.take_answer(self.rt, pass, call)
    }

    fn bind(
        &self,
        pass: &mut Pass<N>,
        session: u32,
        variable: u32,
        value: Root,
    ) -> Result<BindReply, AllocError> {
        self.office.bind(self.rt, pass, variable, value)
    }

    fn reply(
        &self,
        pass: &mut Pass<N>,
        session: u32,
        message: u32,
        outcome: Outcome,
    ) -> Result<(), AllocError> {
        self.office.reply(self.rt, pass, message, outcome)
    }

    fn send(
        &self,
        pass: &mut Pass<N>,
        session: u32,
        call: u32,
        port: u32,
        op: u32,
        value: Tree,
        wants: bool,
    ) -> Result<(), AllocError> {
        self.office
            .send(self.rt, pass, call, port, op, value, wants)
    }

    fn end(&self, pass: &mut Pass<N>, session: u32) -> Result<(), AllocError> {
        self.office.end(self.rt, pass)
    }

    fn has_mail(&self, pass: &mut Pass<N>, session: u32, ops: &[u32]) -> Result<bool, AllocError> {
        self.office.has_mail(self.rt, pass, ops)
    }

    fn has_answer(&self, pass: &mut Pass<N>, session: u32, call: u32) -> Result<bool, AllocError> {
        self.office.has_answer(self.rt, pass, call)
    }
}
