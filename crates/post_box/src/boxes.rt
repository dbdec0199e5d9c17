ghost use Rattle.std.specs.Prelude.{◌≡◌};
ghost use Rattle.post_box.specs.declared.boxes.PutError.TheVariants.{Memory};

use crate::mailbox::{Mailbox, Waiting};
use std::alloc::{AllocError, Global};
use thiserror::Error;

/// How many messages wait for a session at most.
const LIMIT: u32 = 256;

/// Why a message was not put into a box.
#[derive(Debug, Drop, Error)]
pub enum PutError {
    #[error("box full")]
    Full,
    #[error("out of memory")]
    Memory(AllocError),
}

impl From<AllocError> for PutError {
    ghost from_gives = { λ a e. e ≡ Memory a };

    fn from(error: AllocError) -> PutError {
        PutError::Memory(error)
    }
}

/// The boxes of all sessions.
#[derive(Drop)]
pub struct Boxes {
    list: Vec<Mailbox>,
}

impl Boxes {
    ghost use Rattle.std.specs.Prelude.{◌≤◌, ◌<◌, ◌++◌, ◌∷◌, ℕ, [], drop, length, IfErr, OnErr, OnOk};
    ghost use Rattle.std.specs.Vec.{vec_len};
    ghost use Rattle.post_box.specs.Limit.{box_limit};
    ghost use Rattle.post_box.specs.Oldest.{oldest, oldest_of_all, waiting, without_oldest};
    ghost use Rattle.post_box.specs.Refusals.{HasRoom, Refuses};
    ghost use Rattle.post_box.specs.View.{box_of, AreSame, ChangesOnly};

    /// Boxes in which nothing waits.
    pub fn new(alloc: Global) -> Boxes
        ensures { (s : ℕ) → box_of result s ≡ [] }
    {
        Boxes {
            list: Vec::new(alloc),
        }
    }

    /// How many messages wait for a session.
    pub fn len(&self, session: u32) -> u32
        ensures count { result ≡ length (box_of self.now session) }
        ensures limit { result ≤ box_limit }
    {
        match self.list.get(session as usize) {
            Some(mailbox) => mailbox.len(),
            None => 0,
        }
    }

    /// Puts a message into the box of a session, behind all that wait there.
    pub fn put(&mut self, session: u32, op: u32, message: u32) -> Result<(), PutError>
        ensures put { OnOk result (ChangesOnly session (box_of self.old session ++ waiting op message ∷ []) self.old
            self.new) }
        ensures room { OnOk result (HasRoom (box_of self.old session)) }
        ensures refused { IfErr result (λ e. Refuses (box_of self.old session) e) }
        ensures unchanged { OnErr result (AreSame self.old self.new) }
    {
        if self.len(session) >= LIMIT {
            return Err(PutError::Full);
        }
        self.reach(session)?;
        self.list[session as usize].put(Waiting { op, message })?;
        Ok(())
    }

    /// The oldest message of one of the operations that waits for a session.
    pub fn first(&self, session: u32, ops: &[u32]) -> Option<u32>
        ensures { result ≡ oldest ops.now (box_of self.now session) }
    {
        match self.list.get(session as usize) {
            Some(mailbox) => mailbox.first(ops),
            None => None,
        }
    }

    /// Takes out the oldest message of one of the operations that waits for a session.
    pub fn take(&mut self, session: u32, ops: &[u32]) -> Option<u32>
        ensures value { result ≡ oldest ops.now (box_of self.old session) }
        ensures rest { ChangesOnly session (without_oldest ops.now (box_of self.old session)) self.old self.new }
    {
        if session as usize >= self.list.len() {
            return None;
        }
        self.list[session as usize].take(ops)
    }

    /// Takes out the oldest message of all that wait for a session.
    pub fn take_any(&mut self, session: u32) -> Option<u32>
        ensures value { result ≡ oldest_of_all (box_of self.old session) }
        ensures rest { ChangesOnly session (drop 1 (box_of self.old session)) self.old self.new }
    {
        if session as usize >= self.list.len() {
            return None;
        }
        self.list[session as usize].take_any()
    }

    /// Makes boxes up to that of a session.
    #[tactic(auto, using(crate::proofs::Mailboxes::one_more))]
    fn reach(&mut self, session: u32) -> Result<(), AllocError>
        ensures within { OnOk result (session < vec_len self.new.list) }
        ensures same { AreSame self.old self.new }
    {
        while self.list.len() <= session as usize {
            self.list.push(Mailbox::new(*self.list.allocator()))?;
        }
        Ok(())
    }
}
