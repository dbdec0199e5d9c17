ghost use Rattle.std.specs.Prelude.{◌≡◌, [], ◌∷◌, None, Some, IfOk, IfSome, IsErrOf, IsOkUnless, alloc_error, map, option_map};
ghost use Rattle.outside_traits.specs.Told.{Lists};
ghost use Rattle.outside_links.specs.Trips.{Brings, StaysTold, faults_after, there_alone, there_and_back};

use crate::coming::Coming;
use crate::link::Link;
use crate::trips::{Trip, Trips};
use outside_traits::CallError;
use std::alloc::Global;
use std::marker::Model;

/// A link in memory, whose trips bring back bytes or fail, as its script says of each. Behind the last of it they bring
/// no bytes.
#[derive(Drop)]
pub struct ScriptedLink {
    alloc: Global,
    coming: Coming<Option<Vec<u8>>>,
    trips: Trips,
    faults: u64,
}

impl Model for ScriptedLink {
    ghost use Rattle.std.specs.Prelude.{map, option_map};
    ghost use Rattle.outside_links.specs.Links.{Road};

    ghost Value = { Road };

    ghost view = { λ l. record { coming = map (option_map (λ v. v.items)) l.coming; trips = l.trips; faults = l.faults } };
}

impl ScriptedLink {
    /// A link whose trips bring back these bytes, and fail where there are none.
    pub fn new(alloc: Global, script: Vec<Option<Vec<u8>>>) -> ScriptedLink
        ensures coming { result.coming ≡ map (option_map (λ v. v.items)) script.items }
        ensures trips { result.trips ≡ Some [] }
        ensures faults { result.faults ≡ 0 }
    {
        ScriptedLink {
            alloc,
            coming: Coming::new(script),
            trips: Trips::new(alloc),
            faults: 0,
        }
    }

    /// The trips in order: all, where they are told.
    pub fn trips(&self) -> &[Trip]
        ensures { IfSome self.now.trips (λ trips. result.now ≡ trips) }
    {
        self.trips.noted()
    }
}

impl Link for ScriptedLink {
    ghost told = { λ l. record { trips = l.trips; coming = Some l.coming; faults = l.faults } };

    fn trip(&mut self, location: &str, text: &[u8]) -> Result<Vec<u8>, CallError>
        ensures scripted { IsOkUnless result CallError.Failed }
        ensures back { IfOk result
            (λ bytes. Lists self.old.trips self.new.trips (there_and_back location.now text.now bytes.items ∷ [])) }
        ensures alone { IsErrOf result CallError.Failed
            → Lists self.old.trips self.new.trips (there_alone location.now text.now ∷ []) }
        ensures unmade { IsErrOf result (CallError.Memory alloc_error) → Lists self.old.trips self.new.trips [] }
        ensures brought { IfOk result
            (λ bytes. Brings (Some self.old.coming) (Some self.new.coming) (Some bytes.items)) }
        ensures failed { IsErrOf result CallError.Failed → Brings (Some self.old.coming) (Some self.new.coming) None }
        ensures wanted { IsErrOf result (CallError.Memory alloc_error)
            → StaysTold (Some self.old.coming) (Some self.new.coming) }
        ensures faults { self.new.faults ≡ faults_after result self.old.faults }
    {
        let Some(bytes) = next_reply(self.alloc, &mut self.coming) else {
            self.trips.note_alone(location, text);
            self.faults = self.faults.saturating_add(1);
            return Err(CallError::Failed);
        };
        self.trips.note_back(location, text, &bytes);
        Ok(bytes)
    }
}

/// What comes next, none where the trip fails: behind the last no bytes.
fn next_reply(alloc: Global, coming: &mut Coming<Option<Vec<u8>>>) -> Option<Vec<u8>>
    ensures { Brings (Some (map (option_map (λ v. v.items)) coming.old))
        (Some (map (option_map (λ v. v.items)) coming.new))
        (option_map (λ v. v.items) result) }
{
    match coming.next() {
        None => Some(Vec::new(alloc)),
        Some(reply) => reply,
    }
}
