ghost use Rattle.std.specs.Prelude.{◌≡◌};
ghost use Rattle.session_faults.specs.Decisions as spec;

/// Where a fault has come to: it goes on upward, the scope of this name caught it, it ended at the scope of this name,
/// this ready strand blocks it, or its strand has no place there.
#[derive(Clone, Copy, Debug, PartialEq, Eq)]
pub enum Decision {
    Up,
    Caught(u32),
    Ended(u32),
    Blocked(u64),
    Absent,
}

impl Decision {
    /// Whether the fault goes on upward.
    pub fn is_up(&self) -> bool
        ensures { result ≡ spec.is_up self.now }
    {
        match self {
            Decision::Up => true,
            Decision::Caught(_) | Decision::Ended(_) => false,
            Decision::Blocked(_) | Decision::Absent => false,
        }
    }
}
