ghost use Rattle.std.specs.Prelude.{◌≡◌, [], ◌∷◌, None, Some, IsErrOf, IfOk, alloc_error};
ghost use Rattle.outside_traits.specs.Told.{Lists};
ghost use Rattle.outside_links.specs.Trips.{Brings, LinkTold, StaysTold, faults_after, there_alone, there_and_back};

use outside_traits::CallError;

/// The way to services elsewhere.
pub trait Link {
    /// What the link tells.
    ghost told: { Self → LinkTold };

    /// Takes a text to a location, once, and gives the bytes that came back.
    fn trip(&mut self, location: &str, text: &[u8]) -> Result<Vec<u8>, CallError>
        ensures back { IfOk result
            (λ bytes. Lists (told self.old).trips (told self.new).trips
            (there_and_back location.now text.now bytes.items ∷ [])) }
        ensures alone { IsErrOf result CallError.Failed
            → Lists (told self.old).trips (told self.new).trips (there_alone location.now text.now ∷ []) }
        // A trip that there was no memory for may have been made: then the link tells its trips no more.
        ensures unmade { IsErrOf result (CallError.Memory alloc_error)
            → Lists (told self.old).trips (told self.new).trips [] }
        ensures brought { IfOk result
            (λ bytes. Brings (told self.old).coming (told self.new).coming (Some bytes.items)) }
        ensures failed { IsErrOf result CallError.Failed → Brings (told self.old).coming (told self.new).coming None }
        ensures wanted { IsErrOf result (CallError.Memory alloc_error)
            → StaysTold (told self.old).coming (told self.new).coming }
        ensures faults { (told self.new).faults ≡ faults_after result (told self.old).faults };
}
