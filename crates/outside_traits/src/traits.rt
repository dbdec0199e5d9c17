ghost use Rattle.std.specs.Prelude.{◌≡◌, ◌<◌, ◌≤◌, ◌||◌, not, List, [], ◌∷◌, ℕ, true, length, take, Ok, IsTrue, IsErr, IfOk, IfSome, MatchResult};
ghost use Rattle.std.specs.declared.option.Option.{Option};
ghost use Rattle.std.specs.Io.{ReadsAtMost, WritesAtMost};
ghost use Rattle.std.specs.Io.KnownBytes.{ReadConsumes, WriteAppends};
ghost use Rattle.outside_traits.specs.Calls.{moved, tells_end};
ghost use Rattle.outside_traits.specs.Told.{Lists, FilesTold, SourceTold, SinkTold, WireTold, shut};
ghost use Rattle.outside_traits.specs.declared.calls.WireCall.TheVariants.{Read, Wrote};
ghost use Rattle.outside_traits.specs.Causes.{HasCause, HasCallCause};

use crate::errors::{CallError, Failed};

/// Files by name.
pub trait Files {
    /// The bytes of the file of a name, where they are told.
    ghost held: { Self → List ℕ → Option (List ℕ) };

    /// What the files tell. A name counts as asked for whether or not the read failed, and the faults rise with each
    /// read that fails, and stand else.
    ghost told: { Self → FilesTold };

    /// The first `most` bytes of the file, or all of it where it has fewer.
    fn read(&mut self, name: &str, most: u64) -> Result<Vec<u8>, CallError>
        ensures most { IfOk result (λ bytes. length bytes.items ≤ most) }
        ensures bytes { IfOk result (λ bytes. IfSome (held self.old name.now) (λ all. bytes.items ≡ take most all)) }
        ensures kept { held self.new ≡ held self.old }
        ensures asked { Lists (told self.old).asked (told self.new).asked (name.now ∷ []) }
        ensures cause { HasCallCause (told self.old).faults (told self.new).faults result };
}

/// Bytes that come in.
pub trait Source {
    /// What the source tells. Its faults rise with each read that fails, and stand else.
    ghost told: { Self → SourceTold };

    /// The next bytes. With a buffer that is not empty, 0 comes at the end of input and only there.
    fn read(&mut self, into: &mut [u8]) -> Result<usize, Failed>
        ensures bound { ReadsAtMost result into.new }
        ensures bytes { ReadConsumes (told self.old).unread (told self.new).unread result into.new }
        ensures cause { HasCause (told self.old).faults (told self.new).faults result };
}

/// Where bytes go.
pub trait Sink {
    /// What the sink tells. Its faults rise with each write that fails, and stand else.
    ghost told: { Self → SinkTold };

    /// Takes a front of the bytes.
    fn write(&mut self, from: &[u8]) -> Result<usize, Failed>
        ensures bound { WritesAtMost result from.now }
        ensures some { IfOk result (λ count. 0 < length from.now → 0 < count) }
        ensures bytes { WriteAppends (told self.old).written (told self.new).written result from.now }
        ensures cause { HasCause (told self.old).faults (told self.new).faults result };
}

/// A connection: bytes come in and go out on it, until it is closed. A closed wire answers a read as at the end of
/// input, and a write with a failure, which is none of the wire.
pub trait Wire {
    /// What the wire tells.
    ghost told: { Self → WireTold };

    /// The next bytes. With a buffer that is not empty, 0 comes at the end of input and only there.
    fn read(&mut self, into: &mut [u8]) -> Result<usize, Failed>
        ensures bound { ReadsAtMost result into.new }
        ensures bytes { ReadConsumes (told self.old).unread (told self.new).unread result into.new }
        // What was read grows by the bytes that this call gave.
        ensures read { WriteAppends (told self.old).read (told self.new).read result into.new }
        ensures written { (told self.new).written ≡ (told self.old).written }
        ensures calls { Lists (told self.old).calls (told self.new).calls (Read (moved result) ∷ []) }
        ensures closed { (told self.new).closed ≡ (told self.old).closed }
        ensures ended { (told self.new).ended
            ≡ ((told self.old).ended || tells_end (told self.old).closed (length into.old) result) }
        ensures shut { IsTrue (told self.old).closed → result ≡ Ok 0 }
        ensures read_failed { MatchResult result
            (λ _. (told self.new).read_failed ≡ (told self.old).read_failed)
            (λ _. (told self.new).read_failed ≡ true) }
        ensures write_failed { (told self.new).write_failed ≡ (told self.old).write_failed }
        ensures door { (told self.new).door ≡ (told self.old).door };

    /// Takes a front of the bytes.
    fn write(&mut self, from: &[u8]) -> Result<usize, Failed>
        ensures bound { WritesAtMost result from.now }
        ensures some { IfOk result (λ count. 0 < length from.now → 0 < count) }
        ensures bytes { WriteAppends (told self.old).written (told self.new).written result from.now }
        ensures read { (told self.new).read ≡ (told self.old).read }
        ensures unread { (told self.new).unread ≡ (told self.old).unread }
        ensures calls { Lists (told self.old).calls (told self.new).calls (Wrote (moved result) ∷ []) }
        ensures closed { (told self.new).closed ≡ (told self.old).closed }
        ensures ended { (told self.new).ended ≡ (told self.old).ended }
        ensures shut { IsTrue (told self.old).closed → IsErr result }
        ensures read_failed { (told self.new).read_failed ≡ (told self.old).read_failed }
        ensures write_failed { MatchResult result
            (λ _. (told self.new).write_failed ≡ (told self.old).write_failed)
            (λ _. (told self.new).write_failed ≡ ((told self.old).write_failed || not (told self.old).closed)) }
        ensures door { (told self.new).door ≡ (told self.old).door };

    /// Closes the wire, which drops what is left to read.
    fn close(&mut self)
        ensures closed { told self.new ≡ shut (told self.old) };
}
