ghost use Rattle.std.specs.Prelude.{◌≡◌, ◌≤◌, length};
ghost use Rattle.post_box.specs.Limit.{box_limit};

use std::alloc::{AllocError, Global};

/// A message that waits, by its number, with its operation.
#[derive(Clone, Copy, Debug, PartialEq, Eq)]
pub struct Waiting {
    pub op: u32,
    pub message: u32,
}

impl Waiting {
    ghost use Rattle.post_box.specs.Oldest.{is_of};

    /// Whether the message is of one of the operations.
    #[tactic(auto, using(crate::proofs::Oldest::among))]
    fn is_of(&self, ops: &[u32]) -> bool
        ensures { result ≡ is_of ops.now self.now }
    {
        ops.contains(&self.op)
    }
}

/// The messages that wait for one session, the oldest first.
#[derive(Drop)]
pub struct Mailbox {
    pub list: Vec<Waiting>,
    pub ghost bounded: { length list.items ≤ box_limit },
}

impl Mailbox {
    ghost use Rattle.std.specs.Prelude.{◌++◌, ◌∷◌, [], drop, OnErr, OnOk};
    ghost use Rattle.std.specs.List.{position_from};
    ghost use Rattle.post_box.specs.Oldest.{is_of, oldest, oldest_of_all, without_oldest};
    ghost use Rattle.post_box.specs.Refusals.{HasRoom};

    pub fn new(alloc: Global) -> Mailbox
        ensures { result.list.items ≡ [] }
    {
        Mailbox {
            list: Vec::new(alloc),
        }
    }

    pub fn len(&self) -> u32
        ensures count { result ≡ length self.now.list.items }
        ensures limit { result ≤ box_limit }
    {
        let _ = &self.list;
        self.list.len() as u32
    }

    /// Puts a message behind all others.
    pub fn put(&mut self, waiting: Waiting) -> Result<(), AllocError>
        requires { HasRoom self.old.list.items }
        ensures put { OnOk result (self.new.list.items ≡ self.old.list.items ++ waiting ∷ []) }
        ensures unchanged { OnErr result (self.new.list.items ≡ self.old.list.items) }
    {
        match self.list.push(waiting) {
            Ok(()) => Ok(()),
            Err(error) => Err(error.into()),
        }
    }

    /// The oldest message of one of the operations.
    #[tactic(auto, using(crate::proofs::Oldest::none_oldest))]
    pub fn first(&self, ops: &[u32]) -> Option<u32>
        ensures { result ≡ oldest ops.now self.now.list.items }
    {
        match self.place_of_oldest(ops) {
            Some(place) => Some(self.list[place].message),
            None => None,
        }
    }

    /// Takes out the oldest message of one of the operations.
    #[tactic(auto, using(crate::proofs::Oldest::none_oldest, crate::proofs::Oldest::none_without))]
    pub fn take(&mut self, ops: &[u32]) -> Option<u32>
        ensures value { result ≡ oldest ops.now self.old.list.items }
        ensures rest { self.new.list.items ≡ without_oldest ops.now self.old.list.items }
    {
        match self.place_of_oldest(ops) {
            Some(place) => Some(self.list.remove(place).message),
            None => None,
        }
    }

    /// Takes out the oldest message of all.
    pub fn take_any(&mut self) -> Option<u32>
        ensures value { result ≡ oldest_of_all self.old.list.items }
        ensures rest { self.new.list.items ≡ drop 1 self.old.list.items }
    {
        if self.list.is_empty() {
            return None;
        }
        Some(self.list.remove(0).message)
    }

    /// Where the oldest message of one of the operations stands.
    fn place_of_oldest(&self, ops: &[u32]) -> Option<usize>
        ensures { result ≡ position_from (is_of ops.now) 0 self.now.list.items }
    {
        self.list.iter().position(|waiting| waiting.is_of(ops))
    }
}
