ghost use Rattle.std.specs.Prelude.{◌≡◌, false, true};
ghost use Rattle.behaviour_tree.specs.PartsView.{parts_of};
ghost use Rattle.office_core.specs.Past.{some_entry, closes};
ghost use Rattle.office_plain.specs.Facts.{past_by, KeepsLegal, KeepsLegal-prop, StaysTied, StaysTied-prop};
ghost use Rattle.office_plain.specs.Places.{places_kept};

use crate::kept::Kept;
use crate::log::Log;
use behaviour_tree::Program;
use office_core::History;
use std::alloc::{AllocError, Global};

/// The office of a program. `out_of_memory` tells that a call answered want of memory: each call that may, does so from
/// then on, but the office keeps its history, and closes and stops. `spent` tells that memory was wanting when what is
/// kept had begun to change.
#[derive(Drop)]
pub struct Office {
    pub(crate) program: Program,
    pub(crate) log: Log,
    pub(crate) kept: Kept,
    pub(crate) alloc: Global,
    pub(crate) closed: bool,
    pub(crate) spent: bool,
    pub(crate) out_of_memory: bool,
    pub ghost legal: { KeepsLegal program log } by { KeepsLegal-prop program log },
    pub ghost places: { log.kept ≡ places_kept (past_by program log) },
    pub ghost closing: { closed ≡ some_entry (past_by program log) closes },
    pub ghost tied: { StaysTied program log kept spent } by { StaysTied-prop program log kept spent },
}

impl Office {
    ghost use Rattle.std.specs.Prelude.{[], IfOk, None, OnOk};
    ghost use Rattle.office_plain.specs.Logs.{HasRoom};
    ghost use Rattle.office_plain.specs.View.{entries_of, Adds};

    /// An office in which nothing happened yet: each single service has its session, as far as a run has sessions.
    pub fn new(alloc: Global, program: Program) -> Result<Office, AllocError>
        ensures program { IfOk result (λ o. parts_of o.program ≡ parts_of program) }
        ensures entries { IfOk result (λ o. entries_of o ≡ []) }
        ensures ready { IfOk result (λ o. o.spent ≡ false) }
        ensures able { IfOk result (λ o. o.out_of_memory ≡ false) }
    {
        let kept = Kept::new(alloc, &program)?;
        let log = Log::new(alloc, 2)?;
        Ok(Office {
            program,
            log,
            kept,
            alloc,
            closed: false,
            spent: false,
            out_of_memory: false,
        })
    }

    /// The calls so far.
    pub fn history(&self) -> &History
        ensures { result.now.entries.items ≡ entries_of self.now }
    {
        self.log.history()
    }

    /// The calls in the end.
    pub fn into_history(self) -> History
        ensures { result.entries.items ≡ entries_of self }
    {
        self.log.into_history()
    }

    /// The program that it is for.
    pub fn program(&self) -> &Program
        ensures { result.now ≡ self.now.program }
    {
        &self.program
    }

    /// The history with the room that is kept for entries.
    pub fn log(&self) -> &Log
        ensures { result.now ≡ self.now.log }
    {
        &self.log
    }

    /// Whether the end of input was noted.
    pub fn is_closed(&self) -> bool
        ensures { result ≡ self.now.closed }
    {
        self.closed
    }

    /// What is kept beside the history.
    pub fn kept(&self) -> &Kept
        ensures { result.now ≡ self.now.kept }
    {
        &self.kept
    }

    /// Makes room for one entry more, unless memory was wanting before. The office is out of memory until the call that
    /// begins here succeeds.
    pub(crate) fn begin(&mut self) -> Result<(), AllocError>
        ensures able { OnOk result (self.old.out_of_memory ≡ false) }
        ensures lasting { self.new.out_of_memory ≡ true }
        ensures ready { OnOk result (self.new.spent ≡ false) }
        ensures room { OnOk result (HasRoom self.new.log) }
        ensures same { Adds None self.old self.new }
    {
        if self.out_of_memory {
            return Err(AllocError);
        }
        self.out_of_memory = true;
        self.ready()?;
        self.log.reserve()
    }

    /// Whether memory was never wanting when what is kept had begun to change.
    pub fn ready(&self) -> Result<(), AllocError>
        ensures { OnOk result (self.now.spent ≡ false) }
    {
        if self.spent { Err(AllocError) } else { Ok(()) }
    }
}
