ghost use Rattle.std.specs.Prelude.{◌≡◌, IsOk, IfErr, true};
ghost use Rattle.outside_traits.specs.Causes.{HasCause};
ghost use Rattle.outside_doors.specs.Counts.{untried};
ghost use Rattle.outside_doors.specs.Attempts.{ComesAt, IfCame, closed_after, waits_after, wires_after};
ghost use Rattle.outside_doors.specs.Attempts.{waits_in_a_row_after, rests_in_a_row_after};
ghost use Rattle.outside_socket_doors.specs.Arrivals.{GivesWire, Meets};
ghost use Rattle.outside_socket_doors.specs.Lines.{told_by_line};

use crate::door_wire::DoorWire;
use crate::line::Line;
use crate::listening::Listening;
use crate::obstacle::{Obstacle, obstacle_of};
use crate::poller::Poller;
use crate::saying::say_failed;
use outside_doors::{Accept, Door, DoorCounts};
use outside_traits::Failed;
use std::io;
use std::io::{Eprint, ErrorKind};
use std::marker::Model;
use std::net::{Net, SocketAddr};
use std::rt::Clock;
use std::sync::Arc;

/// A door over a listener of the system, at which somebody may come until the doors close. It says on standard error
/// where the listener fails, with its location where there was memory to keep that. Where it fails or closes it listens
/// no more.
///
/// A rest is one at all doors and wires: it ends when something comes for which one of them waits.
#[derive(Drop)]
pub struct SocketDoor<H: Net + Clock + Eprint + Copy + Drop> {
    host: H,
    poller: Arc<Poller<H>>,
    listening: Option<Listening<H>>,
    location: Option<String>,
    counts: DoorCounts,
}

impl<H: Net + Clock + Eprint + Copy + Drop> Model for SocketDoor<H> {
    ghost use Rattle.outside_doors.specs.Counts.{DoorTold};

    ghost Value = { DoorTold };

    ghost view = { λ d. d.counts };
}

impl<H: Net + Clock + Eprint + Copy + Drop> SocketDoor<H> {
    /// A door of this place over a listener.
    pub(crate) fn new(
        host: H,
        poller: Arc<Poller<H>>,
        listening: Listening<H>,
        location: Option<String>,
        place: u64,
    ) -> SocketDoor<H>
        ensures { result ≡ untried place }
    {
        SocketDoor {
            host,
            poller,
            listening: Some(listening),
            location,
            counts: DoorCounts::new(place),
        }
    }

    /// What the door counts.
    pub fn counts(&self) -> &DoorCounts
        ensures { result.now ≡ self.now }
    {
        &self.counts
    }

    /// Where it listens.
    pub fn address(&self) -> io::Result<SocketAddr> {
        match &self.listening {
            Some(listening) => listening.address(),
            None => Err(io::Error::from(ErrorKind::NotConnected)),
        }
    }

    /// The connection that has come, or why none has.
    fn arrived(&mut self) -> Result<Line<H>, Obstacle>
        ensures { self.new ≡ self.old }
    {
        let Some(listening) = &mut self.listening else {
            return Err(Obstacle::Fault);
        };
        let accepted = listening.accept();
        if let Err(error) = &accepted {
            if let Obstacle::Fault = obstacle_of(error) {
                say_failed(&self.host, self.location.as_ref(), error);
            }
        }
        listening.line(accepted)
    }

    /// What a try answers where this has come, or stood in the way. It counts it.
    fn answer(&mut self, arrived: Result<Line<H>, Obstacle>) -> Result<Accept<DoorWire<H>>, Failed>
        ensures came { IsOk arrived → GivesWire result }
        ensures obstacle { IfErr arrived (λ obstacle. Meets obstacle result) }
        ensures comes { IfCame result (λ wire. ComesAt self.old.place (told_by_line wire)) }
        ensures place { self.new.place ≡ self.old.place }
        ensures wires { self.new.wires ≡ wires_after result self.old.wires }
        ensures waits { self.new.waits ≡ waits_after result self.old.waits }
        ensures rests { self.new.rests ≡ self.old.rests }
        ensures waits_row { self.new.waits_in_a_row ≡ waits_in_a_row_after result self.old.waits_in_a_row }
        ensures rests_row { self.new.rests_in_a_row ≡ rests_in_a_row_after result self.old.rests_in_a_row }
        ensures closed { self.new.closed ≡ closed_after result self.old.closed }
        ensures cause { HasCause self.old.faults self.new.faults result }
    {
        match arrived {
            Ok(line) => {
                self.counts.add_wire();
                Ok(Accept::Came(DoorWire::new(line, self.counts.place())))
            }
            Err(obstacle) => self.answer_without(obstacle),
        }
    }

    /// What a try answers where this stood in the way. It counts it, and listens no more after a fault.
    fn answer_without(&mut self, obstacle: Obstacle) -> Result<Accept<DoorWire<H>>, Failed>
        ensures meets { Meets obstacle result }
        ensures comes { IfCame result (λ wire. ComesAt self.old.place (told_by_line wire)) }
        ensures place { self.new.place ≡ self.old.place }
        ensures wires { self.new.wires ≡ wires_after result self.old.wires }
        ensures waits { self.new.waits ≡ waits_after result self.old.waits }
        ensures rests { self.new.rests ≡ self.old.rests }
        ensures waits_row { self.new.waits_in_a_row ≡ waits_in_a_row_after result self.old.waits_in_a_row }
        ensures rests_row { self.new.rests_in_a_row ≡ rests_in_a_row_after result self.old.rests_in_a_row }
        ensures closed { self.new.closed ≡ closed_after result self.old.closed }
        ensures cause { HasCause self.old.faults self.new.faults result }
    {
        match obstacle {
            Obstacle::Nobody => {
                self.counts.add_wait();
                Ok(Accept::NotYet)
            }
            Obstacle::Want => {
                self.counts.add_wait();
                Ok(Accept::NotYet)
            }
            Obstacle::Fault => {
                self.listening = None;
                self.counts.add_fault();
                Err(Failed)
            }
        }
    }

    /// Notes that nobody comes any more.
    fn close(&mut self)
        ensures { self.new ≡ record self.old { closed = true } }
    {
        self.listening = None;
        self.counts.close();
    }
}

impl<H: Net + Clock + Eprint + Copy + Drop> Door for SocketDoor<H> {
    type W = DoorWire<H>;

    ghost told = { λ d. d };

    fn try_accept(&mut self) -> Result<Accept<DoorWire<H>>, Failed> {
        if self.counts.is_closed() || self.poller.board().is_closing() {
            self.close();
            return Ok(Accept::Closed);
        }
        let arrived = self.arrived();
        self.answer(arrived)
    }

    fn rest(&mut self) {
        self.counts.add_rest();
        self.poller.rest();
    }
}
