//! The caller that makes the others.
ghost use Rattle.std.specs.Prelude.{◌≡◌, IfSome};
ghost use Rattle.office_sharing.specs.Views.{founder, newcomer};
ghost use Rattle.test_sharing.specs.Callers.{IsCaller, IsMaker};

use crate::caller::Caller;
use crate::server::Server;
use office_core::History;
use office_sharing::Naming;
use office_turn::{Pass, SharedOffice};
use std::marker::PhantomData;

/// As many callers as a test makes.
const MOST: u32 = 10_000;

/// The pass that makes others, with the number of the next one, and how many came back.
#[derive(Drop)]
pub struct Maker<N: Naming> {
    pass: Pass<N>,
    given: u32,
    joined: u32,
    of: PhantomData<N>,
    ghost makes: { IsMaker given joined pass },
}

impl<N: Naming> Maker<N> {
    pub fn new(pass: Pass<N>) -> Maker<N>
        requires { pass ≡ founder }
    {
        Maker {
            pass,
            given: 1,
            joined: 0,
            of: PhantomData,
        }
    }

    /// A caller of the next number.
    pub fn caller(&mut self, office: &SharedOffice<N>) -> Option<Caller<N>> {
        let pass = self.newcomer(office)?;
        Some(Caller::new(pass))
    }

    /// A pass of the next number, which made no call.
    pub fn newcomer(&mut self, office: &SharedOffice<N>) -> Option<Pass<N>>
        ensures { IfSome result (λ pass. pass ≡ newcomer pass.number) }
    {
        if self.given >= MOST {
            return None;
        }
        let pass = office.make(&mut self.pass, self.given);
        self.given += 1;
        Some(pass)
    }

    /// A caller comes back.
    pub fn join(&mut self, office: &SharedOffice<N>, caller: Caller<N>) {
        self.take_in(office, caller.into_pass());
    }

    /// A session comes back.
    pub fn join_server(&mut self, office: &SharedOffice<N>, server: Server<N>) {
        self.take_in(office, server.into_pass());
    }

    fn take_in(&mut self, office: &SharedOffice<N>, pass: Pass<N>)
        requires { IsCaller pass }
    {
        if self.joined >= MOST {
            drop(pass);
            return;
        }
        office.join(&mut self.pass, pass);
        self.joined += 1;
    }

    /// The history of the run, once all callers came back.
    pub fn history(self, office: SharedOffice<N>) -> Option<History> {
        let Maker {
            pass,
            given,
            joined,
            of: _,
        } = self;
        if joined >= MOST || joined + 1 != given {
            return None;
        }
        Some(office.into_office(pass).into_history())
    }
}
