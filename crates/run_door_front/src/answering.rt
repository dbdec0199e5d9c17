//! How the answer of a posting goes out on its connection.

ghost use Rattle.std.specs.Prelude.{◌≡◌, true, false, ℕ, Ok, IfOk, MatchResult, slice_get};
ghost use Rattle.behaviour_tree.specs.PartsView.{parts_of};
ghost use Rattle.run_door_front.specs.Keeping.{owes as owes_answer};
ghost use Rattle.run_door_front.specs.AnswerSteps.{told_of, owes as owing, is_pending as pending_at, awaited};
ghost use Rattle.run_door_front.specs.AnswerSteps.{awaited_at as one_awaited, Awaits, AwaitsNone};
ghost use Rattle.run_door_front.specs.AnswerSteps.{IsTextOf, HasTold, HasAnswered};

use crate::kept::Kept;
use crate::link::Client;
use behaviour_tree::{Outcome, Program};
use conn_future::Stage;
use jolie_trees::{Bytes, Text};
use jsonrpc_postings::response_to;
use outside_doors::Door;
use outside_polling::PollWire;
use std::alloc::{AllocError, Global};

impl<D: Door + Drop> Kept<D> {
    /// Tells what the calls of the posting of a place came to on its connection. Where no connection owes its answer,
    /// which comes in no run, nothing is told.
    pub(crate) fn answer(
        &mut self,
        alloc: Global,
        program: &Program,
        place: u32,
        outcomes: &[Outcome],
    ) -> Result<(), AllocError>
        ensures answered { (number : ℕ) → Awaits place number self.old
            → IfOk result (λ _. HasAnswered (parts_of program.now) (told_of place outcomes.now) self.old self.new) }
        ensures nobody { AwaitsNone place self.old → (result ≡ Ok tt) × (self.new ≡ self.old) }
        ensures spent { MatchResult result (λ _. self.old.spent ≡ false → self.new.spent ≡ false)
            (λ _. self.new.spent ≡ true) }
        ensures halted { self.new.halted ≡ self.old.halted }
    {
        let Some(number) = awaited(&self.traffics, &self.connections, place) else {
            return Ok(());
        };
        let spent = self.spent;
        self.spent = true;
        self.connections[number].answer(alloc, program, outcomes)?;
        self.spent = spent;
        Ok(())
    }
}

impl<W: PollWire + Drop> Client<W> {
    /// Whether the connection waits for an answer.
    pub(crate) fn owes_answer(&self) -> bool
        ensures { result ≡ owes_answer self.now }
    {
        self.task.stage() == Stage::Owes
    }

    /// Whether the connection owes the answer of the posting of a place.
    fn owes(&self, place: u32) -> bool
        ensures { result ≡ owing place self.now }
    {
        self.owes_answer() && self.is_pending(place)
    }

    /// Whether the request that has no answer yet is that of the posting of a place.
    fn is_pending(&self, place: u32) -> bool
        ensures { result ≡ pending_at place self.now.pending }
    {
        match &self.pending {
            Some(pending) => pending.place == place as usize,
            None => false,
        }
    }

    /// Tells what the calls of the posting came to whose answer the connection owes.
    fn answer(
        &mut self,
        alloc: Global,
        program: &Program,
        outcomes: &[Outcome],
    ) -> Result<(), AllocError>
        requires { (place : ℕ) × (owing place self.old ≡ true) }
        ensures { (place : ℕ) → owing place self.old ≡ true
            → IfOk result (λ _. HasTold (parts_of program.now) (told_of place outcomes.now) self.old self.new) }
    {
        let text = self.text_of(alloc, program, outcomes)?;
        let said = bytes_of(alloc, &text)?;
        self.pending = None;
        self.task.give(said);
        Ok(())
    }

    /// The text that answers the request whose answer the connection owes.
    fn text_of(
        &self,
        alloc: Global,
        program: &Program,
        outcomes: &[Outcome],
    ) -> Result<Option<Text>, AllocError>
        requires { (place : ℕ) × (owing place self.now ≡ true) }
        ensures { (place : ℕ) → owing place self.now ≡ true
            → IfOk result (λ text. IsTextOf (parts_of program.now) (told_of place outcomes.now) self.now text) }
    {
        match &self.pending {
            Some(pending) => response_to(alloc, program, self.service, &pending.read, outcomes),
            None => unreachable!(),
        }
    }
}

/// Which connection has the posting of a place and owes its answer.
fn awaited<W: PollWire + Drop>(
    traffics: &[usize],
    connections: &[Client<W>],
    place: u32,
) -> Option<usize>
    ensures { result ≡ awaited place connections.now traffics.now }
{
    match traffics.get(place as usize) {
        Some(number) => awaited_at(connections, *number, place),
        None => None,
    }
}

/// The number of a connection, where it owes the answer of the posting of a place.
fn awaited_at<W: PollWire + Drop>(
    connections: &[Client<W>],
    number: usize,
    place: u32,
) -> Option<usize>
    ensures { result ≡ one_awaited place number (slice_get connections.now number) }
{
    match connections.get(number) {
        Some(connection) if connection.owes(place) => Some(number),
        _ => None,
    }
}

/// The bytes of a text, where there is one.
fn bytes_of(alloc: Global, text: &Option<Text>) -> Result<Option<Bytes>, AllocError>
    ensures { IfOk result (λ bytes. bytes ≡ text.now) }
{
    match text {
        None => Ok(None),
        Some(text) => Ok(Some(Bytes::from_slice(alloc, text.as_str().as_bytes())?)),
    }
}
