ghost use Rattle.std.specs.Prelude.{◌≡◌, [], ◌∷◌, None, Some, IfOk, IfSome, IsErrOf, IsOk, alloc_error, map};
ghost use Rattle.outside_traits.specs.Told.{Lists};
ghost use Rattle.outside_links.specs.Trips.{Brings, StaysTold, faults_after, there_alone, there_and_back};

use crate::coming::Coming;
use crate::link::Link;
use crate::trips::{Trip, Trips};
use outside_traits::CallError;
use std::alloc::Global;
use std::marker::Model;

/// A link in memory, whose trips bring back bytes in order, without a failure. Behind the last of them they bring none.
#[derive(Drop)]
pub struct UnfailingLink {
    alloc: Global,
    coming: Coming<Vec<u8>>,
    trips: Trips,
}

impl Model for UnfailingLink {
    ghost use Rattle.std.specs.Prelude.{Some, map};
    ghost use Rattle.outside_links.specs.Links.{Road};

    ghost Value = { Road };

    ghost view = { λ l. record { coming = map (λ v. Some v.items) l.coming; trips = l.trips; faults = 0 } };
}

impl UnfailingLink {
    /// A link whose trips bring back these answers.
    pub fn new(alloc: Global, answers: Vec<Vec<u8>>) -> UnfailingLink
        ensures coming { result.coming ≡ map (λ v. Some v.items) answers.items }
        ensures trips { result.trips ≡ Some [] }
        ensures faults { result.faults ≡ 0 }
    {
        UnfailingLink {
            alloc,
            coming: Coming::new(answers),
            trips: Trips::new(alloc),
        }
    }

    /// The trips in order: all, where they are told.
    pub fn trips(&self) -> &[Trip]
        ensures { IfSome self.now.trips (λ trips. result.now ≡ trips) }
    {
        self.trips.noted()
    }
}

impl Link for UnfailingLink {
    ghost told = { λ l. record { trips = l.trips; coming = Some l.coming; faults = l.faults } };

    fn trip(&mut self, location: &str, text: &[u8]) -> Result<Vec<u8>, CallError>
        ensures unfailed { IsOk result }
        ensures back { IfOk result
            (λ bytes. Lists self.old.trips self.new.trips (there_and_back location.now text.now bytes.items ∷ [])) }
        ensures alone { IsErrOf result CallError.Failed
            → Lists self.old.trips self.new.trips (there_alone location.now text.now ∷ []) }
        ensures unmade { IsErrOf result (CallError.Memory alloc_error) → Lists self.old.trips self.new.trips [] }
        ensures brought { IfOk result
            (λ bytes. Brings (Some self.old.coming) (Some self.new.coming) (Some bytes.items)) }
        ensures failed { IsErrOf result CallError.Failed → Brings (Some self.old.coming) (Some self.new.coming) None }
        ensures wanted { IsErrOf result (CallError.Memory alloc_error)
            → StaysTold (Some self.old.coming) (Some self.new.coming) }
        ensures faults { self.new.faults ≡ faults_after result self.old.faults }
    {
        let bytes = next_bytes(self.alloc, &mut self.coming);
        self.trips.note_back(location, text, &bytes);
        Ok(bytes)
    }
}

/// The bytes that come next, none behind the last.
fn next_bytes(alloc: Global, coming: &mut Coming<Vec<u8>>) -> Vec<u8>
    ensures { Brings (Some (map (λ v. Some v.items) coming.old)) (Some (map (λ v. Some v.items) coming.new))
        (Some result.items) }
{
    match coming.next() {
        None => Vec::new(alloc),
        Some(bytes) => bytes,
    }
}
