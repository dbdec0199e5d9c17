//! Sessions at the shared office that answer what they take, each with a pass of its own.
ghost use Rattle.std.specs.Prelude.{◌≡◌, ◌≤◌, ◌+◌, true, IfOk, IfSome};
ghost use Rattle.behaviour_tree.specs.PartsView.{parts_of};
ghost use Rattle.behaviour_tree.specs.declared.words.Need.TheVariants as need;
ghost use Rattle.behaviour_tree.specs.declared.words.Outcome.{Outcome as Ended};
ghost use Rattle.office_core.specs.Limits.{run_of};
ghost use Rattle.office_sharing.specs.Named.{parts_by};
ghost use Rattle.office_sharing.specs.Views.{newcomer};
ghost use Rattle.session_shared_turns.specs.Stays.{MayAsk};
ghost use Rattle.session_turn.specs.Asking as asks;
ghost use Rattle.test_sharing.specs.Callers.{IsCaller};
ghost use Rattle.test_sharing.specs.Servers.{IsServer, IsServer-prop, MayAnswer};
ghost use Rattle.test_sharing.specs.declared.server.TheConstants.{FIRST};

use behaviour_tree::{Outcome, Program};
use jolie_trees::Tree;
use office_core::Mail;
use office_sharing::Naming;
use office_turn::{Pass, SharedOffice};
use session_shared_turns::what_a_session_may_ask_stays;
use std::alloc::{AllocError, Global};
use std::marker::PhantomData;
use std::sync::Wait;

/// The operation whose messages are answered.
const FIRST: u32 = 0;

/// A session that was adopted. It answers messages in the order of their numbers, the next one from `next` on.
#[derive(Drop)]
pub struct Server<N: Naming> {
    pass: Pass<N>,
    service: u32,
    next: u32,
    of: PhantomData<N>,
    ghost serves: { IsServer (parts_by N.program) service next pass } by { IsServer-prop (parts_by N.program) service next pass },
    ghost answers: { asks.has_response (run_of (parts_by N.program)) service FIRST ≡ true },
}

impl<N: Naming> Server<N> {
    /// The session of a new pass; none where it was not born, or its service answers no message of the operation.
    pub fn adopted<R: Wait>(
        rt: &R,
        office: &SharedOffice<N>,
        program: &Program,
        mut pass: Pass<N>,
    ) -> Result<Option<Server<N>>, AllocError>
        requires new { pass ≡ newcomer pass.number }
        requires program { parts_of program.now ≡ parts_by N.program }
    {
        let Some(birth) = office.adopt(rt, &mut pass)? else {
            return Ok(None);
        };
        if !has_response(program, birth.service, FIRST) {
            return Ok(None);
        }
        Ok(Some(Server {
            pass,
            service: birth.service,
            next: 0,
            of: PhantomData,
        }))
    }

    /// Takes the oldest message that waits, and answers it; says whether there was one.
    pub fn serve<R: Wait>(
        &mut self,
        rt: &R,
        alloc: Global,
        office: &SharedOffice<N>,
    ) -> Result<bool, AllocError> {
        let Some(mail) = self.taken(rt, office)? else {
            return Ok(false);
        };
        let Some(next) = mail.message.checked_add(1) else {
            return Ok(false);
        };
        if mail.message < self.next || mail.op != FIRST {
            return Ok(false);
        }
        self.replied(rt, alloc, office, mail.message, next)?;
        Ok(true)
    }

    /// The oldest message that waits is taken, and may be answered where it is of the next ones.
    fn taken<R: Wait>(
        &mut self,
        rt: &R,
        office: &SharedOffice<N>,
    ) -> Result<Option<Mail>, AllocError>
        ensures same { (self.new.service ≡ self.old.service) × (self.new.next ≡ self.old.next) }
        ensures may { IfOk result (λ o. IfSome o
            (MayAnswer (parts_by N.program) self.new.service self.new.next self.new.pass)) }
    {
        what_a_session_may_ask_stays();
        office.take(rt, &mut self.pass, &[FIRST])
    }

    /// Answers a message that was taken, with nothing.
    fn replied<R: Wait>(
        &mut self,
        rt: &R,
        alloc: Global,
        office: &SharedOffice<N>,
        message: u32,
        next: u32,
    ) -> Result<(), AllocError>
        requires may { (o : Ended) → MayAsk (parts_by N.program) self.old.pass (need.Reply message o) }
        requires above { self.old.next ≤ message }
        requires next { next ≡ message + 1 }
    {
        what_a_session_may_ask_stays();
        let outcome = Outcome::Value(Tree::void(alloc));
        office.reply(rt, &mut self.pass, message, outcome)?;
        self.next = next;
        Ok(())
    }

    pub fn into_pass(self) -> Pass<N>
        ensures { IsCaller result }
    {
        let Server {
            pass,
            service: _,
            next: _,
            of: _,
        } = self;
        pass
    }
}

/// Whether the operation of a service has a response.
fn has_response(program: &Program, service: u32, op: u32) -> bool
    ensures { result ≡ asks.has_response (run_of (parts_of program.now)) service op }
{
    match program.operation(service, op) {
        Some(operation) => operation.response.is_some(),
        None => false,
    }
}
