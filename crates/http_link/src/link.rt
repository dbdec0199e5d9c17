ghost use Rattle.std.specs.Prelude.{◌≡◌, None, MatchResult};
ghost use Rattle.outside_links.specs.Trips.{faults_after};
ghost use Rattle.http_link.specs.Trips.{Answered, BringsNothing, telling};

use crate::exchange::visit;
use crate::inbox::Inbox;
use crate::request::request_bytes;
use outside_dials::Dial;
use outside_links::Link;
use outside_traits::{CallError, Failed};
use std::alloc::Global;
use std::marker::Model;

/// A link over HTTP: each trip posts its text on a wire of its own, which it dials.
#[derive(Drop)]
pub struct HttpLink<D> {
    alloc: Global,
    dial: D,
    faults: u64,
}

impl<D> Model for HttpLink<D> {
    ghost use Rattle.http_link.specs.Trips.{Linked};

    ghost Value = { Linked D };

    ghost view = { λ l. record { dial = l.dial; faults = l.faults } };
}

impl<D> HttpLink<D> {
    /// A link that dials so, and has made no trip.
    pub fn new(alloc: Global, dial: D) -> HttpLink<D>
        ensures dial { result.dial ≡ dial }
        ensures faults { result.faults ≡ 0 }
    {
        HttpLink {
            alloc,
            dial,
            faults: 0,
        }
    }

    pub fn dialler(&self) -> &D
        ensures { result.now ≡ self.now.dial }
    {
        &self.dial
    }
}

impl<D: Dial> Link for HttpLink<D> {
    ghost told = { λ l. record { trips = None; coming = None; faults = l.faults } };

    fn trip(&mut self, location: &str, text: &[u8]) -> Result<Vec<u8>, CallError>
        ensures trip { MatchResult result
            (λ body. Answered location.now text.now (telling D.blank (D.told self.old.dial))
            (telling D.blank (D.told self.new.dial)) body.items)
            (λ error. BringsNothing location.now text.now (telling D.blank (D.told self.old.dial))
            (telling D.blank (D.told self.new.dial)) error) }
        ensures faults { self.new.faults ≡ faults_after result self.old.faults }
    {
        let request = request_bytes(self.alloc, location, text)?;
        let mut inbox = Inbox::new(self.alloc)?;
        match visit(&mut self.dial, location, request.as_slice(), &mut inbox) {
            Ok(Some(body)) => Ok(inbox.into_part(body)),
            Ok(None) => {
                self.faults = self.faults.saturating_add(1);
                Err(CallError::Failed)
            }
            Err(Failed) => {
                self.faults = self.faults.saturating_add(1);
                Err(CallError::Failed)
            }
        }
    }
}
