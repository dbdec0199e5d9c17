ghost use Rattle.std.specs.Prelude.{◌≡◌, ◌<◌, IfOk, length};
ghost use Rattle.behaviour_tree.specs.PartsView.{parts_of};
ghost use Rattle.session_calculus.specs.Runs.{start_of};

use crate::session::Session;
use behaviour_tree::Program;
use std::alloc::{AllocError, Global};

/// A session that takes turns from the start of its service on.
pub trait Seating: Session + Drop {
    /// The session at the start of a service.
    fn start(alloc: Global, program: &Program, service: u32) -> Result<Self, AllocError>
    where
        Self: Sized,
        requires known { service < length (parts_of program.now).services }
        ensures service { IfOk result (λ s. Self.service_of s ≡ service) }
        ensures config { IfOk result (λ s. Self.config_of s ≡ start_of (parts_of program.now) service) };
}
