//! Who is asked for the answers.
ghost use Rattle.std.specs.Prelude.{◌≡◌, [], ◌∷◌, MatchResult};
ghost use Rattle.http_port.specs.Asking.{Grows};

use jolie_trees::Bytes;
use std::alloc::AllocError;

/// What is said to a request.
#[derive(Debug, Drop)]
pub enum Said {
    /// The answer is this text.
    Text(Bytes),
    /// There is nothing to say.
    Nothing,
    /// The answer comes later.
    Later,
}

/// Who is asked for the answers of a connection.
pub trait Serve {
    ghost use Rattle.std.specs.Prelude.{List, ℕ, Option};
    ghost use Rattle.http_port.specs.declared.serve.Said.{Said};

    /// The bodies that it was handed, in order, where they are told.
    ghost heard: { Self → Option (List (List ℕ)) };

    /// What it said to each, where that is told.
    ghost said: { Self → Option (List Said) };

    /// What is said to the request with this body. For want of memory nothing is.
    fn request(&mut self, body: &[u8]) -> Result<Said, AllocError>
        ensures heard { MatchResult result (λ _. Grows (heard self.old) (heard self.new) (body.now ∷ []))
            (λ _. heard self.new ≡ heard self.old) }
        ensures said { MatchResult result (λ answer. Grows (said self.old) (said self.new) (answer ∷ []))
            (λ _. said self.new ≡ said self.old) };
}
