use crate::origin::Origin;
use crate::place::{Place, Standing};
use behaviour_tree::Outcome;
use std::alloc::{AllocError, Global};

/// The accepted messages by number.
#[derive(Drop)]
pub struct Book {
    places: Vec<Option<Place>>,
}

impl Book {
    ghost use Rattle.std.specs.Prelude.{◌≡◌, ◌<◌, ℕ, None, Some, true, OnErr, OnOk};
    ghost use Rattle.std.specs.Option.{option_copied};
    ghost use Rattle.std.specs.Vec.{vec_len};
    ghost use Rattle.reqresp_book.specs.declared.place.Standing.TheVariants as standing;
    ghost use Rattle.reqresp_book.specs.Standing.{collected_at, is_open_at, outcome_at};
    ghost use Rattle.reqresp_book.specs.View.{origin_of, place_of, standing_of, AreSame, ComesFrom, HaveSameOrigins, Stands};

    /// A book without a message.
    pub fn new(alloc: Global) -> Book
        ensures origins { (m : ℕ) → origin_of result m ≡ None }
        ensures standings { (m : ℕ) → standing_of result m ≡ None }
    {
        Book {
            places: Vec::new(alloc),
        }
    }

    /// Notes a message, which has no answer yet.
    pub fn open(&mut self, message: u32, origin: Origin) -> Result<(), AllocError>
        requires { origin_of self.old message ≡ None }
        ensures origin { OnOk result (ComesFrom message origin self.old self.new) }
        ensures standing { OnOk result (Stands message (Some standing.Open) self.old self.new) }
        ensures unchanged { OnErr result (AreSame self.old self.new) }
    {
        self.reach(message)?;
        self.places[message as usize] = Some(Place {
            origin,
            standing: Standing::Open,
        });
        Ok(())
    }

    /// Whether a message is open: it was noted and has no answer yet.
    pub fn is_open(&self, message: u32) -> bool
        ensures { result ≡ is_open_at (standing_of self.now message) }
    {
        match self.place(message) {
            Some(place) => place.standing.is_open(),
            None => false,
        }
    }

    /// Where a message came from.
    pub fn origin(&self, message: u32) -> Option<&Origin>
        ensures { option_copied result ≡ origin_of self.now message }
    {
        match self.place(message) {
            Some(place) => Some(&place.origin),
            None => None,
        }
    }

    /// The answer of a message, until it was taken out.
    pub fn outcome(&self, message: u32) -> Option<&Outcome>
        ensures { option_copied result ≡ outcome_at (standing_of self.now message) }
    {
        match self.place(message) {
            Some(place) => place.standing.outcome(),
            None => None,
        }
    }

    /// Gives a message its answer.
    pub fn answer(&mut self, message: u32, outcome: Outcome)
        requires { is_open_at (standing_of self.old message) ≡ true }
        ensures origins { HaveSameOrigins self.old self.new }
        ensures standing { Stands message (Some (standing.Answered outcome)) self.old self.new }
    {
        match &mut self.places[message as usize] {
            Some(place) => place.standing = Standing::Answered(outcome),
            None => unreachable!(),
        }
    }

    /// Takes out the answer of a message.
    pub fn collect(&mut self, message: u32) -> Option<Outcome>
        ensures value { result ≡ outcome_at (standing_of self.old message) }
        ensures origins { HaveSameOrigins self.old self.new }
        ensures standing { Stands message (collected_at (standing_of self.old message)) self.old self.new }
    {
        if message as usize >= self.places.len() {
            return None;
        }
        match &mut self.places[message as usize] {
            Some(place) => place.standing.collect(),
            None => None,
        }
    }

    /// What the book has of a message.
    fn place(&self, message: u32) -> Option<&Place>
        ensures { option_copied result ≡ place_of self.now message }
    {
        match self.places.get(message as usize) {
            Some(Some(place)) => Some(place),
            Some(None) | None => None,
        }
    }

    /// Makes places up to that of a message.
    #[tactic(auto, using(crate::proofs::Places::one_more))]
    fn reach(&mut self, message: u32) -> Result<(), AllocError>
        ensures within { OnOk result (message < vec_len self.new.places) }
        ensures same { AreSame self.old self.new }
    {
        while self.places.len() <= message as usize {
            self.places.push(None)?;
        }
        Ok(())
    }
}
