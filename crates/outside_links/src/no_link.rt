ghost use Rattle.std.specs.Prelude.{◌≡◌, None, IsErrOf};
ghost use Rattle.outside_links.specs.Trips.{faults_after};

use crate::link::Link;
use outside_traits::CallError;
use std::marker::Model;

/// A link that reaches nobody: each trip fails, which is counted.
#[derive(Drop)]
pub struct NoLink {
    faults: u64,
}

impl Model for NoLink {
    ghost use Rattle.std.specs.Prelude.{ℕ};

    ghost Value = { ℕ };

    ghost view = { λ l. l.faults };
}

impl NoLink {
    /// A link that has made no trip.
    pub fn new() -> NoLink
        ensures { result ≡ 0 }
    {
        NoLink { faults: 0 }
    }
}

impl Link for NoLink {
    ghost told = { λ faults. record { trips = None; coming = None; faults = faults } };

    fn trip(&mut self, _location: &str, _text: &[u8]) -> Result<Vec<u8>, CallError>
        ensures always { IsErrOf result CallError.Failed }
        ensures faults { self.new ≡ faults_after result self.old }
    {
        self.faults = self.faults.saturating_add(1);
        Err(CallError::Failed)
    }
}
