//! Callers at the shared office, each with a pass of its own.
ghost use Rattle.test_sharing.specs.Callers.{IsAdopted, IsCaller, IsCopy};

use office_core::{Mail, PostReply, Posted};
use office_sharing::Naming;
use office_turn::{Pass, SharedOffice};
use reqresp_book::Origin;
use std::alloc::AllocError;
use std::marker::PhantomData;
use std::sync::Wait;

/// The actors from this number on are workers.
const FIRST_WORKER: u32 = 4_096;

/// A worker or a session. It makes no call that its number may not make.
#[derive(Drop)]
pub struct Caller<N: Naming> {
    pass: Pass<N>,
    adopted: bool,
    of: PhantomData<N>,
    ghost calls: { IsCaller pass },
    ghost adopts: { IsAdopted adopted pass },
}

/// What a caller has seen.
#[derive(Drop)]
pub struct Copied<N: Naming> {
    pass: Pass<N>,
    of: PhantomData<N>,
    ghost copy: { IsCopy pass },
}

impl<N: Naming> Caller<N> {
    pub fn new(pass: Pass<N>) -> Caller<N>
        requires { IsCaller pass }
    {
        Caller {
            pass,
            adopted: false,
            of: PhantomData,
        }
    }

    pub fn into_pass(self) -> Pass<N>
        ensures { IsCaller result }
    {
        let Caller {
            pass,
            adopted: _,
            of: _,
        } = self;
        pass
    }

    /// What the caller has seen.
    pub fn copied(&mut self, office: &SharedOffice<N>) -> Copied<N> {
        let pass = office.split(&mut self.pass);
        Copied {
            pass,
            of: PhantomData,
        }
    }

    /// Takes in what another has seen.
    pub fn take_in(&mut self, office: &SharedOffice<N>, copied: Copied<N>) {
        let Copied { pass, of: _ } = copied;
        office.join(&mut self.pass, pass);
    }

    /// What a worker's message is answered; none where the caller is no worker.
    pub fn post<R: Wait>(
        &mut self,
        rt: &R,
        office: &SharedOffice<N>,
        posted: Posted,
    ) -> Result<Option<PostReply>, AllocError> {
        if self.pass.number() < FIRST_WORKER {
            drop(posted);
            return Ok(None);
        }
        let origin = Origin::Port {
            posting: 0,
            index: 0,
        };
        let reply = office.post(rt, &mut self.pass, origin, posted)?;
        Ok(Some(reply))
    }

    /// Adopts the session of the caller's number, and says whether it was born.
    pub fn adopt<R: Wait>(&mut self, rt: &R, office: &SharedOffice<N>) -> Result<bool, AllocError> {
        if self.adopted {
            return Ok(true);
        }
        self.adopted = office.adopt(rt, &mut self.pass)?.is_some();
        Ok(self.adopted)
    }

    /// The oldest message of the first operation that waits for the session; none where none does, or where the
    /// session was not adopted.
    pub fn take<R: Wait>(
        &mut self,
        rt: &R,
        office: &SharedOffice<N>,
    ) -> Result<Option<Mail>, AllocError> {
        if !self.adopted {
            return Ok(None);
        }
        office.take(rt, &mut self.pass, &[0])
    }
}
