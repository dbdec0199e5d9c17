//! A text on its way out.
ghost use Rattle.std.specs.Prelude.{◌≡◌, ◌++◌, ◌==◌, ◌≤◌, [], length, drop};
ghost use Rattle.conn_future.specs.Steps.{outgoing};

use jolie_trees::Bytes;
use std::alloc::Global;
use std::marker::Model;

/// A text that goes out, of which a front is out.
#[derive(Drop)]
pub struct Due {
    text: Bytes,
    done: usize,
}

impl Model for Due {
    ghost use Rattle.std.specs.Prelude.{◌≤◌, take, drop, length};
    ghost use Rattle.conn_future.specs.Outgoing.{Outgoing};

    ghost Value = { Outgoing };

    ghost view = { λ d. record { out = take d.done d.text; left = drop d.done d.text } };

    ghost invariant = { λ d. d.done ≤ length d.text };
}

impl Due {
    /// Nothing is to go out.
    pub(crate) fn nothing(alloc: Global) -> Due
        ensures { result ≡ outgoing [] }
    {
        Due {
            text: Bytes::new(alloc),
            done: 0,
        }
    }

    /// A text of which nothing is out.
    pub(crate) fn new(text: Bytes) -> Due
        ensures { result ≡ outgoing text }
    {
        Due { text, done: 0 }
    }

    /// What is left of it.
    pub(crate) fn left(&self) -> &[u8]
        ensures { result.now ≡ self.now.left }
    {
        let (_, left) = self.text.as_slice().split_at(self.done);
        left
    }

    /// So many bytes more are out.
    pub(crate) fn advance(&mut self, count: usize)
        requires { count ≤ length self.old.left }
        ensures whole { self.new.out ++ self.new.left ≡ self.old.out ++ self.old.left }
        ensures left { self.new.left ≡ drop count self.old.left }
    {
        let (_, rest) = self.left().split_at(count);
        self.done = self.text.len() - rest.len();
    }

    /// Whether all of it is out.
    pub(crate) fn is_out(&self) -> bool
        ensures { result ≡ (length self.now.left == 0) }
    {
        self.left().is_empty()
    }
}
