ghost use Rattle.std.specs.Prelude.{◌≡◌, Err, IfErr, IsOk};
ghost use Rattle.outside_socket_doors.specs.declared.obstacle.Obstacle.TheVariants as Obstacles;
ghost use Rattle.outside_socket_doors.specs.Arrivals.{obstacle_of};

use crate::line::Line;
use crate::obstacle::{Obstacle, obstacle_of};
use crate::poller::Poller;
use crate::seat::Seat;
use mio::Interest;
use mio::net::{TcpListener, TcpStream};
use std::io;
use std::io::{Eprint, ErrorKind};
use std::net::{Net, SocketAddr};
use std::rt::Clock;
use std::sync::Arc;

/// How many in a row an accept passes over that came and are gone.
const MOST_GONE: u32 = 64;

/// A listener whose accept does not wait. Where nobody was there the system is asked no more until the poll reports.
#[derive(Drop)]
pub(crate) struct Listening<H: Net + Clock + Eprint + Copy + Drop> {
    listener: TcpListener,
    seat: Seat<H>,
    /// What had been reported when nobody was there.
    emptied: Option<u64>,
}

impl<H: Net + Clock + Eprint + Copy + Drop> Listening<H> {
    /// A listener at an address, which is reported to a poll from now on.
    pub(crate) fn new(
        host: &H,
        poller: &Arc<Poller<H>>,
        address: SocketAddr,
    ) -> io::Result<Listening<H>> {
        let mut listener = TcpListener::bind(host, address)?;
        let seat = Seat::new(poller)?;
        seat.enroll(&mut listener, Interest::READABLE)?;
        Ok(Listening {
            listener,
            seat,
            emptied: None,
        })
    }

    /// Where it listens.
    pub(crate) fn address(&self) -> io::Result<SocketAddr> {
        self.listener.local_addr()
    }

    /// An accept, where somebody may be there. Who came and is gone is passed over: of the next one nothing new may be
    /// reported, so that a rest would last beside him.
    pub(crate) fn accept(&mut self) -> io::Result<TcpStream> {
        let Some(rings) = self.seat.news(self.emptied) else {
            return Err(io::Error::from(ErrorKind::WouldBlock));
        };
        for _ in 0..MOST_GONE {
            match self.accept_one(rings) {
                Err(error) if self.is_of_one_gone(&error) => {}
                accepted => return accepted,
            }
        }
        Err(io::Error::from(ErrorKind::ConnectionAborted))
    }

    /// One accept, before which so much had been reported.
    fn accept_one(&mut self, rings: u64) -> io::Result<TcpStream> {
        self.emptied = None;
        match self.listener.accept() {
            Ok((stream, _)) => Ok(stream),
            Err(error) => {
                self.emptied = self.seat.mark_of(&error, rings);
                Err(error)
            }
        }
    }

    /// Whether the error of the last accept says that who came is gone, or that a signal came: not that nobody waits.
    fn is_of_one_gone(&self, error: &io::Error) -> bool {
        self.emptied.is_none() && matches!(obstacle_of(error), Obstacle::Nobody)
    }

    /// The connection of an accept, or what stands in its way: also that the system has no room to report on it.
    pub(crate) fn line(&self, accepted: io::Result<TcpStream>) -> Result<Line<H>, Obstacle>
        ensures error { IfErr accepted (λ error. result ≡ Err (obstacle_of error)) }
        ensures want { IsOk accepted → IfErr result (λ obstacle. obstacle ≡ Obstacles.Want) }
    {
        match accepted {
            Ok(stream) => match self.enrolled(stream) {
                Ok(line) => Ok(line),
                Err(_) => Err(Obstacle::Want),
            },
            Err(error) => Err(obstacle_of(&error)),
        }
    }

    /// A connection that has come, at a seat of its own.
    fn enrolled(&self, stream: TcpStream) -> io::Result<Line<H>> {
        Line::new(stream, self.seat.another()?)
    }
}
