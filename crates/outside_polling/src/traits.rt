ghost use Rattle.std.specs.Prelude.{◌≡◌, length};
ghost use Rattle.std.specs.Io.{ReadsAtMost, WritesAtMost};
ghost use Rattle.outside_polling.specs.Polls.{PollTold, done, row_after, longest_after, Polls, ReadsWire, WritesWire, shut_so};

use outside_traits::Failed;

/// What a call of a wire that does not wait comes to: it moved so many bytes, or can move none yet.
#[derive(Clone, Copy, Debug, PartialEq, Eq)]
pub enum Ready {
    Done(usize),
    NotYet,
}

/// A connection whose calls do not wait: bytes come in and go out on it, until it is closed. A closed wire answers as
/// every wire does, and at once.
pub trait PollWire {
    /// What the wire tells.
    ghost told: { Self → PollTold };

    /// The next bytes, if some have come or none come any more.
    fn try_read(&mut self, into: &mut [u8]) -> Result<Ready, Failed>
        ensures bound { ReadsAtMost (done result) into.new }
        ensures reads { Polls result (told self.old) (told self.new)
            (λ answer. ReadsWire (length into.old) into.new answer) }
        ensures row { (told self.new).in_a_row ≡ row_after result (told self.old).in_a_row }
        ensures longest { (told self.new).longest ≡ (told self.old).longest };

    /// Takes a prefix of the bytes, if there is room for some.
    fn try_write(&mut self, from: &[u8]) -> Result<Ready, Failed>
        ensures bound { WritesAtMost (done result) from.now }
        ensures writes { Polls result (told self.old) (told self.new) (λ answer. WritesWire from.now answer) }
        ensures row { (told self.new).in_a_row ≡ row_after result (told self.old).in_a_row }
        ensures longest { (told self.new).longest
            ≡ longest_after result (told self.old).longest (told self.old).in_a_row };

    /// Closes the wire, which drops what is left to read.
    fn close(&mut self)
        ensures closed { told self.new ≡ shut_so (told self.old) };
}
