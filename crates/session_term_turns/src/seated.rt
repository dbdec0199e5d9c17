ghost use Rattle.term_session.specs.Sessions.{config_of as config, service_of as service};

use behaviour_tree::{Event, Given, Need, Program, Strands};
use session_turn::{Seating, Session};
use std::alloc::{AllocError, Global};
use term_session::{StepError, TermSession};

/// A session over terms that takes turns.
#[derive(Drop)]
pub struct Seated {
    pub session: TermSession,
}

impl Session for Seated {
    ghost config_of = { λ s. config s.session };

    ghost service_of = { λ s. service s.session };

    fn enabled(&self, program: &Program) -> Result<Strands, AllocError> {
        self.session.enabled(program)
    }

    fn need(&self, program: &Program, strand: u64) -> Result<Option<Need>, AllocError> {
        self.session.need(program, strand)
    }

    fn step(
        &mut self,
        program: &Program,
        strand: u64,
        given: Given,
    ) -> Result<Option<Event>, AllocError> {
        match self.session.step(program, strand, given) {
            Ok(event) => Ok(Some(event)),
            Err(StepError::NotEnabled(_)) => Ok(None),
            Err(StepError::Memory(error)) => Err(error),
        }
    }

    fn ended(&self) -> bool {
        self.session.ended()
    }
}

impl Seating for Seated {
    fn start(alloc: Global, program: &Program, service: u32) -> Result<Seated, AllocError> {
        let session = TermSession::start(alloc, program, service)?;
        Ok(Seated { session })
    }
}
