ghost use Rattle.std.specs.Prelude.{◌≡◌, None, option_map};
ghost use Rattle.outside_sockets.specs.Sockets.{new_socket, socket_traffic};

use crate::allowance::Allowance;
use crate::location::address_of;
use crate::socket_wire::SocketWire;
use crate::timed_stream::TimedStream;
use outside_dials::Dial;
use outside_traits::{Failed, Wire};
use std::marker::Model;
use std::net::{Net, TcpStream, ToSocketAddrs};
use std::rt::Clock;
use std::time::Duration;

/// A dialler over the TCP sockets of the system, which tells its count of faults, and of the last wire that came back
/// whether it failed and whether a read told the end.
///
/// A wire has so much time, from the moment at which it is dialled on: connecting, each read and each write fail where
/// it is over, also where a peer sends its bytes one by one. What the system needs to look up the name of a host counts
/// into it, but is not cut short.
#[derive(Drop)]
pub struct SocketDial<H: Net + Clock + Copy + Drop> {
    host: H,
    most: Duration,
    last: Option<SocketWire<TimedStream<H::Stream, H>>>,
    faults: u64,
}

impl<H: Net + Clock + Copy + Drop> Model for SocketDial<H> {
    ghost use Rattle.outside_sockets.specs.Sockets.{SocketSwitch};

    ghost Value = { SocketSwitch };

    ghost view = { λ d. record { last = d.last; faults = d.faults } };
}

impl<H: Net + Clock + Copy + Drop> SocketDial<H> {
    /// A dialler whose wires have so much time each.
    pub fn new(host: H, most: Duration) -> SocketDial<H>
        ensures last { result.last ≡ None }
        ensures faults { result.faults ≡ 0 }
    {
        SocketDial {
            host,
            most,
            last: None,
            faults: 0,
        }
    }
}

impl<H: Net + Clock + Copy + Drop> Dial for SocketDial<H> {
    type W = SocketWire<TimedStream<H::Stream, H>>;

    ghost blank = { socket_traffic (new_socket None) };

    ghost told = { λ d. record { dialled = None; last = option_map socket_traffic d.last; faults = d.faults } };

    fn dial(&mut self, location: &str) -> Result<SocketWire<TimedStream<H::Stream, H>>, Failed> {
        match connected(self.host, location, self.most) {
            Some(stream) => Ok(SocketWire::new(stream, None)),
            None => {
                self.faults = self.faults.saturating_add(1);
                Err(Failed)
            }
        }
    }

    fn back(&mut self, mut wire: SocketWire<TimedStream<H::Stream, H>>) {
        wire.close();
        if wire.is_lost() || wire.is_cut() {
            self.faults = self.faults.saturating_add(1);
        }
        self.last = Some(wire);
    }
}

/// A connection to the host and the port of a location, none where it is of another form or nobody answers there in
/// time.
fn connected<H: Net + Clock + Copy + Drop>(
    host: H,
    location: &str,
    most: Duration,
) -> Option<TimedStream<H::Stream, H>> {
    let allowance = Allowance::new(host, most).ok()?;
    let address = address_of(location)?;
    for address in address.to_socket_addrs(&host).ok()? {
        let left = allowance.left().ok()?;
        if let Ok(stream) = TcpStream::connect_timeout(&host, &address, left) {
            return Some(TimedStream::new(stream, allowance));
        }
    }
    None
}
