ghost use Rattle.std.specs.Prelude.{◌≡◌, ◌∷◌, [], IfOk, OnErr, IfSome, IsTrue, is_ok};
ghost use Rattle.outside_traits.specs.Causes.{HasCause};
ghost use Rattle.outside_doors.specs.Counts.{untried, with_opened};
ghost use Rattle.outside_traits.specs.Told.{Lists};
ghost use Rattle.outside_doors.specs.Returns.{none_told, try_told};
ghost use Rattle.outside_sockets.specs.Locations.{is_of_socket};

use crate::door_wire::DoorWire;
use crate::listening::Listening;
use crate::patience::Patience;
use crate::poller::Poller;
use crate::returned_wires::{ReturnedWire, ReturnedWires};
use crate::saying::{say_open, say_unopened};
use crate::socket_door::SocketDoor;
use outside_doors::{Counts, DoorCounts, Doors, ReturnedDoors, Tries, Try};
use outside_polling::PollWire;
use outside_sockets::address_of;
use outside_traits::Failed;
use std::alloc::Global;
use std::io;
use std::io::{Eprint, ErrorKind};
use std::marker::Model;
use std::net::{Net, ToSocketAddrs};
use std::os::fd::RawFd;
use std::rt::Clock;
use std::sync::Arc;

/// Doors over the TCP sockets of the system. They tell what they count, and for as long as there is memory to keep it
/// the tries to open a door, how the calls of each wire had gone that came back, and what each door counted. They tell
/// none of the bytes. They say on standard error at which location they listen, and at which they can't.
#[derive(Drop)]
pub struct SocketDoors<H: Net + Clock + Eprint + Copy + Drop> {
    alloc: Global,
    host: H,
    patience: Patience,
    input: Option<RawFd>,
    poller: Option<Arc<Poller<H>>>,
    counts: Counts,
    faults: u64,
    tries: Tries,
    returned: ReturnedWires,
    returned_doors: ReturnedDoors,
}

impl<H: Net + Clock + Eprint + Copy + Drop> Model for SocketDoors<H> {
    ghost use Rattle.outside_doors.specs.Returns.{DoorsTold};

    ghost Value = { DoorsTold };

    ghost view = { λ d. record {
      faults = d.faults;
      tally = d.counts;
      tries = d.tries;
      returned = d.returned;
      returned_doors = d.returned_doors;
    } };
}

impl<H: Net + Clock + Eprint + Copy + Drop> SocketDoors<H> {
    /// Doors at which those who come are waited for with this patience. Where there is an input, its end closes them: a
    /// pipe or the like, since nothing is read of it.
    pub fn new(alloc: Global, host: H, patience: Patience, input: Option<RawFd>) -> SocketDoors<H>
        ensures { result ≡ none_told }
    {
        SocketDoors {
            alloc,
            host,
            patience,
            input,
            poller: None,
            counts: Counts::new(),
            faults: 0,
            tries: Tries::new(alloc),
            returned: ReturnedWires::new(alloc),
            returned_doors: ReturnedDoors::new(alloc),
        }
    }

    /// What was counted of what was opened and of what came back.
    pub fn counts(&self) -> &Counts
        ensures { result.now ≡ self.now.tally }
    {
        &self.counts
    }

    /// How often a door failed to open, or came back that had failed.
    pub fn faults(&self) -> u64
        ensures { result ≡ self.now.faults }
    {
        self.faults
    }

    /// The tries to open a door in order: all, where they are told.
    pub fn tries(&self) -> &[Try]
        ensures { IfSome self.now.tries (λ tries. result.now ≡ tries) }
    {
        self.tries.kept()
    }

    /// The wires that came back in order: all, where they are told.
    pub fn returned(&self) -> &[ReturnedWire]
        ensures { IfSome self.now.returned (λ wires. result.now ≡ wires) }
    {
        self.returned.kept()
    }

    /// What each door counted that came back, in order: all, where they are told.
    pub fn returned_doors(&self) -> &[DoorCounts]
        ensures { IfSome self.now.returned_doors (λ doors. result.now ≡ doors) }
    {
        self.returned_doors.kept()
    }

    /// The one poll of all doors, which is made for the first.
    fn poller(&mut self) -> io::Result<Arc<Poller<H>>>
        ensures { self.new ≡ self.old }
    {
        if let Some(poller) = &self.poller {
            return Ok(Arc::try_clone(poller)?);
        }
        let poller = Arc::new(
            self.alloc,
            Poller::new(self.alloc, self.host, self.patience, self.input)?,
        )?;
        let first = Arc::try_clone(&poller)?;
        self.poller = Some(poller);
        Ok(first)
    }

    /// A door of this place at the location of a socket, or why there can't be one.
    fn door_at(&mut self, location: &str, place: u64) -> io::Result<SocketDoor<H>>
        ensures form { IfOk result (λ _. IsTrue (is_of_socket location.now)) }
        ensures untried { IfOk result (λ door. door ≡ untried place) }
        ensures same { self.new ≡ self.old }
    {
        let poller = self.poller()?;
        let listening = listening_at(&self.host, &poller, location)?;
        let named = String::from_str(self.alloc, location).ok();
        Ok(SocketDoor::new(self.host, poller, listening, named, place))
    }
}

impl<H: Net + Clock + Eprint + Copy + Drop> Doors for SocketDoors<H> {
    type D = SocketDoor<H>;

    ghost told = { λ d. d };

    // Only the location of a socket has a door.
    fn open(&mut self, location: &str) -> Result<SocketDoor<H>, Failed>
        ensures form { IfOk result (λ _. IsTrue (is_of_socket location.now)) }
        ensures untried { IfOk result (λ door. door ≡ untried self.old.tally.opened) }
        ensures opened { IfOk result (λ _. self.new.tally ≡ with_opened self.old.tally) }
        ensures unopened { OnErr result (self.new.tally ≡ self.old.tally) }
        ensures listed { Lists self.old.tries self.new.tries (try_told location.now (is_ok result) ∷ []) }
        ensures returned { self.new.returned ≡ self.old.returned }
        ensures returned_doors { self.new.returned_doors ≡ self.old.returned_doors }
        ensures cause { HasCause self.old.faults self.new.faults result }
    {
        let place = self.counts.opened();
        match self.door_at(location, place) {
            Ok(door) => {
                say_open(&self.host, location);
                self.counts.add_opened();
                self.tries.keep(location, true);
                Ok(door)
            }
            Err(error) => {
                say_unopened(&self.host, location, &error);
                self.faults = self.faults.saturating_add(1);
                self.tries.keep(location, false);
                Err(Failed)
            }
        }
    }

    fn wire_back(&mut self, mut wire: DoorWire<H>) {
        wire.close();
        self.counts.add_wire(
            wire.is_lost(),
            wire.is_cut(),
            wire.has_ended(),
            wire.waits(),
        );
        self.returned.keep(&wire);
    }

    fn door_back(&mut self, door: SocketDoor<H>) {
        self.counts.add_door(door.counts());
        self.returned_doors.keep(door.counts());
        if door.counts().faults() != 0 {
            self.faults = self.faults.saturating_add(1);
        }
    }
}

/// A listener at the location of a socket, or why there can't be one.
///
/// A name may have several addresses. The first is taken at which the system lets it listen, and no other: a listener
/// has one address, and a door one listener.
fn listening_at<H: Net + Clock + Eprint + Copy + Drop>(
    host: &H,
    poller: &Arc<Poller<H>>,
    location: &str,
) -> io::Result<Listening<H>>
    ensures { IfOk result (λ _. IsTrue (is_of_socket location.now)) }
{
    let Some(address) = address_of(location) else {
        return Err(io::Error::from(ErrorKind::InvalidInput));
    };
    let mut reason = io::Error::from(ErrorKind::AddrNotAvailable);
    for address in address.to_socket_addrs(host)? {
        match Listening::new(host, poller, address) {
            Ok(listening) => return Ok(listening),
            Err(error) => reason = error,
        }
    }
    Err(reason)
}
