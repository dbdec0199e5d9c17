//! The bytes of a connection that no request took yet.
ghost use Rattle.std.specs.Prelude.{◌≡◌, ◌≤◌, ◌++◌, [], drop, length, OnOk};

use std::alloc::{AllocError, Global};
use std::marker::Model;

/// Bytes that come at the back and are taken from the front.
#[derive(Drop)]
pub(crate) struct Unread {
    bytes: Vec<u8>,
    start: usize,
}

impl Model for Unread {
    ghost use Rattle.std.specs.Prelude.{◌≤◌, List, ℕ, drop, length};

    ghost Value = { List ℕ };

    ghost view = { λ u. drop u.start u.bytes.items };

    ghost invariant = { λ u. u.start ≤ length u.bytes.items };
}

impl Unread {
    pub(crate) fn new(alloc: Global) -> Unread
        ensures { result ≡ [] }
    {
        Unread {
            bytes: Vec::new(alloc),
            start: 0,
        }
    }

    pub(crate) fn as_slice(&self) -> &[u8]
        ensures { result.now ≡ self.now }
    {
        &self.bytes.as_slice()[self.start..]
    }

    /// Puts more bytes at the back. Where there are none, nothing is moved.
    pub(crate) fn append(&mut self, more: &[u8]) -> Result<(), AllocError>
        ensures { OnOk result (self.new ≡ self.old ++ more.now) }
    {
        if more.is_empty() {
            return Ok(());
        }
        self.close_gap();
        self.bytes.extend_from_slice(more)
    }

    /// Takes bytes from the front.
    pub(crate) fn advance(&mut self, count: usize)
        requires { count ≤ length self.old }
        ensures { self.new ≡ drop count self.old }
    {
        self.start += count;
    }

    /// Gives back the room of what was taken, once that is as much as is left. So each byte is moved a bounded number
    /// of times.
    fn close_gap(&mut self)
        ensures { self.new ≡ self.old }
    {
        let left = self.bytes.len() - self.start;
        if left <= self.start {
            self.bytes.rotate_left(self.start);
            self.bytes.truncate(left);
            self.start = 0;
        }
    }
}
