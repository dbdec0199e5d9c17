//! How long a connection is waited for.
ghost use Rattle.std.specs.Prelude.{◌≡◌, ◌-◌, nat_le};
ghost use Rattle.std.specs.Duration.{as_nanos};
ghost use Rattle.outside_socket_doors.specs.Patience.{is_idle, is_over, rest_milliseconds};
ghost use Rattle.outside_socket_doors.specs.Patience.{turn_at_read, turn_at_write, turn_by_read};

use std::time::Duration;

/// The most milliseconds of a rest.
const LONGEST_REST: u128 = 1_000;

/// How long those who come in at a door are waited for.
#[derive(Clone, Copy)]
pub struct Patience {
    /// How long the first bytes of a request may take.
    pub idle: Duration,
    /// How long the rest of it may take, from these on.
    pub request: Duration,
    /// How long an answer may take to be taken, from its first write on.
    pub answer: Duration,
    /// How long a rest is where nothing comes. It is 1,000 ms at most, whatever stands here.
    pub rest: Duration,
}

/// What a connection is at, and since which nanosecond: nothing of a next request has come, one has begun, or its
/// answer has.
#[derive(Clone, Copy)]
pub(crate) enum Turn {
    Idle(u64),
    Request(u64),
    Answer(u64),
}

impl Turn {
    /// What it is at in a read that begins now.
    pub(crate) fn at_read(self, now: u64) -> Turn
        ensures { result ≡ turn_at_read self now }
    {
        match self {
            Turn::Idle(_) | Turn::Request(_) => self,
            Turn::Answer(_) => Turn::Idle(now),
        }
    }

    /// What it is at after a read that has just given so many bytes.
    pub(crate) fn by_read(self, count: usize, now: u64) -> Turn
        ensures { result ≡ turn_by_read self count now }
    {
        match self {
            Turn::Request(_) => self,
            Turn::Idle(_) | Turn::Answer(_) => {
                if count == 0 { self } else { Turn::Request(now) }
            }
        }
    }

    /// What it is at in a write that begins now.
    pub(crate) fn at_write(self, now: u64) -> Turn
        ensures { result ≡ turn_at_write self now }
    {
        match self {
            Turn::Answer(_) => self,
            Turn::Idle(_) | Turn::Request(_) => Turn::Answer(now),
        }
    }

    /// Whether nothing of a next request has come.
    pub(crate) fn is_idle(self) -> bool
        ensures { result ≡ is_idle self }
    {
        matches!(self, Turn::Idle(_))
    }

    /// Whether its time is over.
    pub(crate) fn is_over(self, patience: &Patience, now: u64) -> bool
        ensures { result ≡ is_over patience.now self now }
    {
        match self {
            Turn::Idle(start) => has_passed(patience.idle, start, now),
            Turn::Request(start) => has_passed(patience.request, start, now),
            Turn::Answer(start) => has_passed(patience.answer, start, now),
        }
    }
}

impl Patience {
    /// The milliseconds of a rest.
    pub(crate) fn rest_milliseconds(&self) -> u64
        ensures { result ≡ rest_milliseconds self.now }
    {
        self.rest.as_millis().min(LONGEST_REST) as u64
    }
}

/// Whether so much time has passed from one nanosecond to another.
fn has_passed(most: Duration, start: u64, now: u64) -> bool
    ensures { result ≡ nat_le (as_nanos most) (now - start) }
{
    most.as_nanos() <= u128::from(now.saturating_sub(start))
}
