//! The trips of a link, in their order.
ghost use Rattle.std.specs.Prelude.{◌≡◌, [], ◌∷◌, Some, IfOk, IfSome, option_map};
ghost use Rattle.outside_traits.specs.Told.{Lists};
ghost use Rattle.outside_links.specs.Trips.{there_alone, there_and_back};

use std::alloc::{AllocError, Global};
use std::marker::Model;

/// A trip: where to, with which text, and the bytes that came back, none where it failed.
#[derive(Drop)]
pub struct Trip {
    location: String,
    text: Vec<u8>,
    came: Option<Vec<u8>>,
}

impl Model for Trip {
    ghost use Rattle.std.specs.Prelude.{option_map, string_bytes};
    ghost use Rattle.outside_links.specs.Trips.{Made};

    ghost Value = { Made };

    ghost view = { λ t. record { location = string_bytes t.location; text = t.text.items; came = option_map (λ v. v.items) t.came } };
}

impl Trip {
    /// A trip from which bytes came back.
    fn back(alloc: Global, location: &str, text: &[u8], bytes: &[u8]) -> Result<Trip, AllocError>
        ensures { IfOk result (λ trip. trip ≡ there_and_back location.now text.now bytes.now) }
    {
        let location = String::from_str(alloc, location)?;
        let text = Vec::from_slice(alloc, text)?;
        let came = Vec::from_slice(alloc, bytes)?;
        Ok(Trip {
            location,
            text,
            came: Some(came),
        })
    }

    /// A trip that failed.
    fn alone(alloc: Global, location: &str, text: &[u8]) -> Result<Trip, AllocError>
        ensures { IfOk result (λ trip. trip ≡ there_alone location.now text.now) }
    {
        let location = String::from_str(alloc, location)?;
        let text = Vec::from_slice(alloc, text)?;
        Ok(Trip {
            location,
            text,
            came: None,
        })
    }

    pub fn location(&self) -> &str
        ensures { result.now ≡ self.now.location }
    {
        self.location.as_str()
    }

    pub fn text(&self) -> &[u8]
        ensures { result.now ≡ self.now.text }
    {
        self.text.as_slice()
    }

    /// The bytes that came back, none where the trip failed.
    pub fn came(&self) -> Option<&[u8]>
        ensures { option_map (λ bytes. bytes.now) result ≡ self.now.came }
    {
        match &self.came {
            None => None,
            Some(bytes) => Some(bytes.as_slice()),
        }
    }
}

/// The trips of a link, which are noted for as long as there is memory for it.
#[derive(Drop)]
pub(crate) struct Trips {
    alloc: Global,
    noted: Vec<Trip>,
    is_whole: bool,
}

impl Model for Trips {
    ghost use Rattle.std.specs.Prelude.{Option, None, Some, List, if◌then◌else◌};
    ghost use Rattle.outside_links.specs.Trips.{Made};

    ghost Value = { Option (List Made) };

    ghost view = { λ t. if t.is_whole then Some t.noted.items else None };
}

impl Trips {
    pub(crate) fn new(alloc: Global) -> Trips
        ensures { result ≡ Some [] }
    {
        Trips {
            alloc,
            noted: Vec::new(alloc),
            is_whole: true,
        }
    }

    /// Notes a trip from which bytes came back.
    pub(crate) fn note_back(&mut self, location: &str, text: &[u8], bytes: &[u8])
        ensures { Lists self.old self.new (there_and_back location.now text.now bytes.now ∷ []) }
    {
        match Trip::back(self.alloc, location, text, bytes) {
            Ok(trip) => self.note(trip),
            Err(AllocError) => self.is_whole = false,
        }
    }

    /// Notes a trip that failed.
    pub(crate) fn note_alone(&mut self, location: &str, text: &[u8])
        ensures { Lists self.old self.new (there_alone location.now text.now ∷ []) }
    {
        match Trip::alone(self.alloc, location, text) {
            Ok(trip) => self.note(trip),
            Err(AllocError) => self.is_whole = false,
        }
    }

    /// Notes one more trip.
    fn note(&mut self, trip: Trip)
        ensures { Lists self.old self.new (trip ∷ []) }
    {
        if self.noted.push(trip).is_err() {
            self.is_whole = false;
        }
    }

    /// The trips that were noted: all, where they are told.
    pub(crate) fn noted(&self) -> &[Trip]
        ensures { IfSome self.now (λ trips. result.now ≡ trips) }
    {
        self.noted.as_slice()
    }
}
