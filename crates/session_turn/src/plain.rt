ghost use Rattle.behaviour_tree.specs.PartsView.{parts_of};

use crate::desk::Desk;
use behaviour_tree::{Outcome, Program};
use correlation::BindReply;
use jolie_trees::{Root, Tree};
use office_core::Mail;
use office_plain::Office;
use std::alloc::AllocError;

/// The desk of the office of a program, which nobody else calls. The pass of each session is the office itself.
#[derive(Clone, Copy)]
pub struct PlainDesk<'a> {
    pub program: &'a Program,
}

impl<'a> Desk for PlainDesk<'a> {
    ghost use Rattle.session_turn.specs.Passes.{office_alone, IsReady};
    ghost use Rattle.office_plain.specs.View.{entries_of};

    type Pass = Office;

    ghost office = { λ desk. office_alone (parts_of desk.program.now) };

    ghost seen = { entries_of };

    ghost is_pass = { λ desk office session. IsReady (parts_of desk.program.now) office };

    fn take(
        &self,
        pass: &mut Office,
        session: u32,
        ops: &[u32],
    ) -> Result<Option<Mail>, AllocError> {
        pass.take(session, ops)
    }

    fn take_answer(
        &self,
        pass: &mut Office,
        session: u32,
        call: u32,
    ) -> Result<Option<Outcome>, AllocError> {
        pass.take_answer(session, call)
    }

    fn bind(
        &self,
        pass: &mut Office,
        session: u32,
        variable: u32,
        value: Root,
    ) -> Result<BindReply, AllocError> {
        pass.bind(session, variable, value)
    }

    fn reply(
        &self,
        pass: &mut Office,
        session: u32,
        message: u32,
        outcome: Outcome,
    ) -> Result<(), AllocError> {
        pass.reply(session, message, outcome)
    }

    fn send(
        &self,
        pass: &mut Office,
        session: u32,
        call: u32,
        port: u32,
        op: u32,
        value: Tree,
        wants: bool,
    ) -> Result<(), AllocError> {
        pass.send(session, call, port, op, value, wants)
    }

    fn end(&self, pass: &mut Office, session: u32) -> Result<(), AllocError> {
        pass.end(session)
    }

    #[tactic(auto, using(crate::proofs::Growing::grew_not))]
    fn has_mail(&self, pass: &mut Office, session: u32, ops: &[u32]) -> Result<bool, AllocError> {
        Ok(pass.has_mail(session, ops))
    }

    #[tactic(auto, using(crate::proofs::Growing::grew_not))]
    fn has_answer(&self, pass: &mut Office, session: u32, call: u32) -> Result<bool, AllocError> {
        Ok(pass.has_answer(session, call))
    }
}
