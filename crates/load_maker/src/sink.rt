ghost use Rattle.std.specs.Prelude.{None};

use outside_traits::{Failed, Sink};

/// A sink that takes all and keeps nothing.
#[derive(Drop)]
pub(crate) struct Forgetting;

impl Sink for Forgetting {
    ghost told = { λ _. record { written = None; faults = 0 } };

    fn write(&mut self, from: &[u8]) -> Result<usize, Failed> {
        Ok(from.len())
    }
}
