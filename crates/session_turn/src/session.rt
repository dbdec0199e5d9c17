ghost use Rattle.std.specs.Prelude.{◌≡◌, ◌↔◌, ℕ, false, None, Some, Option, Contains, IfOk, IfSome, IsErr, OnErr, MatchOption};
ghost use Rattle.std.specs.List.Sorted.{IsStrictlyIncreasing};
ghost use Rattle.behaviour_tree.specs.PartsView.{parts_of};
ghost use Rattle.behaviour_tree.specs.declared.words.Given.{Given as Gift};
ghost use Rattle.session_calculus.specs.After.{Config, Done as DoneEvent, HasEvent, after as after_of};

use behaviour_tree::{Event, Given, Need, Program, Strands};
use std::alloc::AllocError;

/// A session of a service, which is spent once memory ran out in a step.
pub trait Session {
    /// The configuration of the session, none once it is spent.
    ghost config_of: { Self → Option Config };

    /// The number of its service.
    ghost service_of: { Self → ℕ };

    /// The strands that have an event for some gift.
    fn enabled(&self, program: &Program) -> Result<Strands, AllocError>
        ensures exact { IfOk result
            (λ strands. IfSome (config_of self.now)
            (λ c. (n : ℕ) → Contains strands n ↔ HasEvent (parts_of program.now) (service_of self.now) c n)) }
        ensures rising { IfOk result IsStrictlyIncreasing }
        ensures spent { config_of self.now ≡ None → IsErr result };

    /// What the event of a strand asks for, or none where the strand has no event.
    fn need(&self, program: &Program, strand: u64) -> Result<Option<Need>, AllocError>
        ensures exact { IfOk result
            (λ o. IfSome (config_of self.now)
            (λ c. MatchOption o (¬ HasEvent (parts_of program.now) (service_of self.now) c strand)
            (λ need. HasEvent (parts_of program.now) (service_of self.now) c strand
            × ((g : Gift) (d : DoneEvent) → after_of (parts_of program.now) (service_of self.now) c strand g ≡ Some d
            → d.need ≡ need)))) }
        ensures spent { config_of self.now ≡ None → IsErr result };

    /// Does the event of a strand for a gift, or nothing where the strand has none for it.
    fn step(
        &mut self,
        program: &Program,
        strand: u64,
        given: Given,
    ) -> Result<Option<Event>, AllocError>
        ensures done { IfOk result (λ o. IfSome (config_of self.old) (λ c. MatchOption o
            ((after_of (parts_of program.now) (service_of self.old) c strand given ≡ None)
            × (config_of self.new ≡ config_of self.old))
            (λ event. (d : DoneEvent) × (after_of (parts_of program.now) (service_of self.old) c strand given
            ≡ Some d) × (event ≡ d.event) × (config_of self.new ≡ Some d.config)))) }
        ensures memory { OnErr result (config_of self.new ≡ None) }
        ensures spent { config_of self.old ≡ None → IsErr result }
        ensures service { service_of self.new ≡ service_of self.old };

    /// Whether the last event was Finish, as it never was of a session that is spent.
    fn ended(&self) -> bool
        ensures exact { IfSome (config_of self.now) (λ c. result ≡ c.ended) }
        ensures spent { config_of self.now ≡ None → result ≡ false };
}
