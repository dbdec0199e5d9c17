ghost use Rattle.std.specs.Prelude.{◌≡◌};
ghost use Rattle.outside_socket_doors.specs.Arrivals.{is_wait, mark_of};

use crate::patience::Patience;
use crate::poller::Poller;
use mio::Interest;
use mio::event::Source;
use std::alloc::{AllocError, Global};
use std::io;
use std::io::{Eprint, ErrorKind};
use std::net::Net;
use std::rt::Clock;
use std::sync::Arc;

/// What a socket knows of what was reported to it: its place, how often a peer there had ended when it took the place,
/// how often the poll had been asked when a call of it found nothing, and whether it waits for a report since.
///
/// Where a call has moved something, the next one asks the system too, and the socket waits for a report only since one
/// has found nothing. The poll reports what is new and not what is there, so that a rest would else last beside bytes
/// of which it was reported before.
pub(crate) struct Seat<H: Net + Clock + Eprint + Copy + Drop> {
    poller: Arc<Poller<H>>,
    place: usize,
    ends: u64,
    seen: u64,
    is_waiting: bool,
}

impl<H: Net + Clock + Eprint + Copy + Drop> Seat<H> {
    /// A seat at a place of its own.
    pub(crate) fn new(poller: &Arc<Poller<H>>) -> Result<Seat<H>, AllocError> {
        let poller = Arc::try_clone(poller)?;
        let board = poller.board();
        let place = board.take_place();
        let ends = board.ends(place);
        let seen = board.looks();
        Ok(Seat {
            poller,
            place,
            ends,
            seen,
            is_waiting: false,
        })
    }

    /// A seat at a place of its own for a socket that came at this one.
    pub(crate) fn another(&self) -> Result<Seat<H>, AllocError> {
        Seat::new(&self.poller)
    }

    /// Has what comes to a socket be reported here.
    pub(crate) fn enroll<S: Source>(&self, socket: &mut S, interests: Interest) -> io::Result<()>
        ensures { S.keeps socket.old socket.new }
    {
        self.poller.enroll(socket, self.place, interests)
    }

    /// Has this and nothing else of a socket be reported here from now on, also where it came before.
    pub(crate) fn enroll_anew<S: Source>(
        &self,
        socket: &mut S,
        interests: Interest,
    ) -> io::Result<()>
        ensures { S.keeps socket.old socket.new }
    {
        self.poller.enroll_anew(socket, self.place, interests)
    }

    /// How often something was reported here, where that is more often than it had been at a call that found nothing.
    /// One who finds nothing twice makes the next look where nobody else has made one since.
    pub(crate) fn news(&mut self, mark: Option<u64>) -> Option<u64> {
        if mark == Some(self.rings()) && self.seen == self.poller.board().looks() {
            self.poller.look();
        }
        let rings = self.rings();
        if mark == Some(rings) {
            self.find_nothing();
            return None;
        }
        self.attend();
        Some(rings)
    }

    /// How often something was reported here.
    fn rings(&self) -> u64 {
        self.poller.board().rings(self.place)
    }

    /// Notes that the socket is called, and waits for no report.
    fn attend(&mut self) {
        if self.is_waiting {
            self.is_waiting = false;
            self.poller.board().leave(self.place);
        }
        self.poller.board().attend(self.place);
    }

    /// What had been reported to a call that came to an error: all that is to be known where it would have had to wait,
    /// and else nothing for sure.
    pub(crate) fn mark_of(&mut self, error: &io::Error, rings: u64) -> Option<u64>
        ensures { result ≡ mark_of error.now rings }
    {
        if !is_wait(error.kind()) {
            return None;
        }
        self.find_nothing();
        Some(rings)
    }

    /// Notes that nothing was found, and that a report is waited for.
    fn find_nothing(&mut self) {
        self.seen = self.poller.board().looks();
        if !self.is_waiting {
            self.is_waiting = true;
            self.poller.board().wait(self.place);
        }
    }

    /// Whether a peer may have ended since the place was taken.
    pub(crate) fn may_have_ended(&self) -> bool {
        self.poller.board().ends(self.place) != self.ends
    }

    /// How long the socket is waited for.
    pub(crate) fn patience(&self) -> &Patience {
        self.poller.patience()
    }

    /// The nanoseconds of the clock when the poll was asked last.
    pub(crate) fn now(&self) -> u64 {
        self.poller.board().now()
    }

    /// Whether nobody new is to be let in any more.
    pub(crate) fn is_closing(&self) -> bool {
        self.poller.board().is_closing()
    }
}

/// Nobody waits at a seat that is given up, and its place is free.
impl<H: Net + Clock + Eprint + Copy + Drop> Drop for Seat<H> {
    fn drop(mut self) {
        self.attend();
        self.poller.board().free_place(self.place);
        let Seat {
            poller: _,
            place: _,
            ends: _,
            seen: _,
            is_waiting: _,
        } = self;
    }
}

/// Whether an error of this kind says that a call would have had to wait.
fn is_wait(kind: ErrorKind) -> bool
    ensures { result ≡ is_wait kind }
{
    matches!(kind, ErrorKind::WouldBlock)
}
