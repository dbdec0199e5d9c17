//! How long something may take.
ghost use Rattle.std.specs.Prelude.{◌≡◌, ◌-◌};
ghost use Rattle.std.specs.Duration.{as_nanos};
ghost use Rattle.std.specs.Time.{instant_nanos};

use std::io;
use std::io::ErrorKind;
use std::rt::Clock;
use std::time::{Duration, Instant};

/// So much time, from a moment of a clock on.
#[derive(Drop)]
pub(crate) struct Allowance<C: Clock + Drop> {
    clock: C,
    start: Instant,
    most: Duration,
}

impl<C: Clock + Drop> Allowance<C> {
    /// So much time from now on.
    pub(crate) fn new(clock: C, most: Duration) -> io::Result<Allowance<C>> {
        let start = Instant::now(&clock)?;
        Ok(Allowance { clock, start, most })
    }

    /// The time that is left; it fails where none is.
    pub(crate) fn left(&self) -> io::Result<Duration> {
        let left = self.left_at(Instant::now(&self.clock)?);
        if left.is_zero() {
            return Err(io::Error::from(ErrorKind::TimedOut));
        }
        Ok(left)
    }

    /// The time that is left at a moment.
    fn left_at(&self, now: Instant) -> Duration
        ensures { as_nanos result ≡ as_nanos self.now.most - (instant_nanos now - instant_nanos self.now.start) }
    {
        self.most.saturating_sub(now.duration_since(self.start))
    }
}
