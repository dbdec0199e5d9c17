ghost use Rattle.std.specs.Prelude.{◌≡◌, ◌<◌, ◌↔◌, ℕ, false, None, Some, Contains, IfOk, IfSome, IsErr, MatchOption, length};
ghost use Rattle.std.specs.List.Sorted.{IsStrictlyIncreasing};
ghost use Rattle.behaviour_tree.specs.PartsView.{parts_of};
ghost use Rattle.behaviour_tree.specs.declared.words.Given.{Given as Gift};
ghost use Rattle.session_calculus.specs.After.{Done as DoneEvent, HasEvent, after as after_of};
ghost use Rattle.session_calculus.specs.Open as held;
ghost use Rattle.session_calculus.specs.Ready.{rising};
ghost use Rattle.session_calculus.specs.Runs.{start_of};
ghost use Rattle.term_session.specs.Sessions.{config_of, service_of};
ghost use Rattle.term_session.specs.declared.session.StepError.TheVariants.{Memory};

use crate::config::{Config, first_config};
use crate::enabled::enabled;
use crate::needed::need_of;
use crate::step::step;
use crate::turn::Turn;
use behaviour_tree::{Event, Given, Need, Numbers, Program, Strands};
use session_forms::{open_requests, waiting};
use session_values::Actor;
use std::alloc::{AllocError, Global};
use thiserror::Error;

/// Why a session did no step.
#[derive(Debug, Drop, Error)]
pub enum StepError {
    #[error("strand {0} has no event for this gift")]
    NotEnabled(u64),
    #[error("out of memory")]
    Memory(AllocError),
}

impl From<AllocError> for StepError {
    ghost from_gives = { λ a e. e ≡ Memory a };

    fn from(error: AllocError) -> StepError {
        StepError::Memory(error)
    }
}

/// A session of a service, which is spent once memory ran out in a step.
#[derive(Drop)]
pub struct TermSession {
    alloc: Global,
    service: u32,
    config: Option<Config>,
}

impl TermSession {
    pub fn start(alloc: Global, program: &Program, service: u32) -> Result<TermSession, AllocError>
        requires known { service < length (parts_of program.now).services }
        ensures { IfOk result
            (λ s. (service_of s ≡ service) × (config_of s ≡ start_of (parts_of program.now) service)) }
    {
        let config = first_config(alloc, &program.parts().services[service as usize])?;
        Ok(TermSession {
            alloc,
            service,
            config: Some(config),
        })
    }

    /// The strands that have an event for some gift.
    pub fn enabled(&self, program: &Program) -> Result<Strands, AllocError>
        ensures exact { IfOk result
            (λ strands. IfSome (config_of self.now)
            (λ c. (n : ℕ) → Contains strands n ↔ HasEvent (parts_of program.now) (service_of self.now) c n)) }
        ensures rising { IfOk result IsStrictlyIncreasing }
        ensures spent { config_of self.now ≡ None → IsErr result }
    {
        let Some(config) = &self.config else {
            return Err(AllocError);
        };
        enabled(self.alloc, config, program, self.service)
    }

    /// What the event of a strand asks for, or none where the strand has no event.
    pub fn need(&self, program: &Program, strand: u64) -> Result<Option<Need>, AllocError>
        ensures exact { IfOk result
            (λ o. IfSome (config_of self.now)
            (λ c. MatchOption o (¬ HasEvent (parts_of program.now) (service_of self.now) c strand)
            (λ need. HasEvent (parts_of program.now) (service_of self.now) c strand
            × ((g : Gift) (d : DoneEvent) → after_of (parts_of program.now) (service_of self.now) c strand g ≡ Some d
            → d.need ≡ need)))) }
        ensures spent { config_of self.now ≡ None → IsErr result }
    {
        let Some(config) = &self.config else {
            return Err(AllocError);
        };
        let actor = Actor {
            program,
            service: self.service,
            strand,
        };
        need_of(self.alloc, config, actor)
    }

    /// Does the event of a strand for a gift. A session that has ended has none, and wants no memory to say so.
    #[tactic(auto, using(crate::proofs::Stepping::stepped_some, crate::proofs::Stepping::stepped_none))]
    pub fn step(&mut self, program: &Program, strand: u64, given: Given) -> Result<Event, StepError>
        ensures done { IfOk result
            (λ event. IfSome (config_of self.old)
            (λ c. (d : DoneEvent) × (after_of (parts_of program.now) (service_of self.old) c strand given ≡ Some d)
            × (event ≡ d.event) × (config_of self.new ≡ Some d.config))) }
        ensures refused { (k : ℕ) → result ≡ Err (StepError.NotEnabled k) → (k ≡ strand)
            × (config_of self.new ≡ config_of self.old)
            × IfSome (config_of self.old)
            (λ c. after_of (parts_of program.now) (service_of self.old) c strand given ≡ None) }
        ensures memory { (a : AllocError) → result ≡ Err (StepError.Memory a) → (config_of self.new ≡ None)
            × IfSome (config_of self.old) (λ c. c.ended ≡ false) }
        ensures spent { config_of self.old ≡ None → (a : AllocError) × (result ≡ Err (StepError.Memory a)) }
        ensures service { service_of self.new ≡ service_of self.old }
    {
        let Some(config) = &mut self.config else {
            return Err(StepError::Memory(AllocError));
        };
        let actor = Actor {
            program,
            service: self.service,
            strand,
        };
        let turn = Turn {
            actor,
            given: &given,
        };
        let stepped = step(self.alloc, config, turn);
        drop(given);
        match stepped {
            Ok(Some(event)) => Ok(event),
            Ok(None) => Err(StepError::NotEnabled(strand)),
            Err(error) => {
                self.config = None;
                Err(StepError::Memory(error))
            }
        }
    }

    /// Whether the last event was Finish, as it never was of a session that is spent.
    pub fn ended(&self) -> bool
        ensures exact { IfSome (config_of self.now) (λ c. result ≡ c.ended) }
        ensures spent { config_of self.now ≡ None → result ≡ false }
    {
        match &self.config {
            Some(config) => config.ended,
            None => false,
        }
    }

    /// The messages of the requests that are still to be answered, in rising order.
    pub fn open_calls(&self) -> Result<Numbers, AllocError>
        ensures exact { IfOk result
            (λ messages. IfSome (config_of self.now) (λ c. messages ≡ rising (held.open_requests c.form))) }
        ensures spent { config_of self.now ≡ None → IsErr result }
    {
        let Some(config) = &self.config else {
            return Err(AllocError);
        };
        let messages = open_requests(self.alloc, &config.form)?;
        Ok(messages)
    }

    /// The calls whose answers the session waits for, in rising order.
    pub fn waiting(&self) -> Result<Numbers, AllocError>
        ensures exact { IfOk result
            (λ calls. IfSome (config_of self.now) (λ c. calls ≡ rising (held.waiting c.form))) }
        ensures spent { config_of self.now ≡ None → IsErr result }
    {
        let Some(config) = &self.config else {
            return Err(AllocError);
        };
        let calls = waiting(self.alloc, &config.form)?;
        Ok(calls)
    }
}
