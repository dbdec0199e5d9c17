use crate::board::{Board, PLACES};
use crate::patience::Patience;
use crate::saying::say_closing;
use mio::event::Source;
use mio::unix::SourceFd;
use mio::{Events, Interest, Poll, Registry, Token};
use std::alloc::Global;
use std::io::Eprint;
use std::net::Net;
use std::os::fd::RawFd;
use std::rt::Clock;
use std::sync::Mutex;
use std::time::{Duration, Instant};
use std::{io, thread};

/// The most events of one look.
const MOST_EVENTS: usize = 256;

/// The token of the input whose end closes the doors.
const INPUT: Token = Token(PLACES);

/// The poll of all doors and wires, and the board on which it reports.
#[derive(Drop)]
pub(crate) struct Poller<H: Net + Clock + Eprint + Copy + Drop> {
    patience: Patience,
    board: Board,
    registry: Registry,
    watch: Mutex<Watch<H>>,
}

/// The poll itself, which one at a time asks.
#[derive(Drop)]
struct Watch<H: Net + Clock + Eprint + Copy + Drop> {
    host: H,
    poll: Poll,
    events: Events,
    start: Instant,
}

impl<H: Net + Clock + Eprint + Copy + Drop> Poller<H> {
    /// A poll of nothing yet, for connections that are waited for with this patience. Where there is an input which can
    /// be watched, as a pipe can, its end closes the doors.
    pub(crate) fn new(
        alloc: Global,
        host: H,
        patience: Patience,
        input: Option<RawFd>,
    ) -> io::Result<Poller<H>> {
        let poll = Poll::new(&host)?;
        let registry = poll.registry().try_clone()?;
        if let Some(input) = input {
            // A file or the like can't be watched, and has no end that anybody waits for.
            let _ = registry.register(&mut SourceFd(&input), INPUT, Interest::READABLE);
        }
        Ok(Poller {
            patience,
            board: Board::new(alloc)?,
            registry,
            watch: Mutex::new(Watch {
                host,
                poll,
                events: Events::with_capacity(alloc, MOST_EVENTS)?,
                start: Instant::now(&host)?,
            }),
        })
    }

    /// How long connections are waited for.
    pub(crate) fn patience(&self) -> &Patience {
        &self.patience
    }

    /// What is reported.
    pub(crate) fn board(&self) -> &Board {
        &self.board
    }

    /// Has what comes to a socket be reported at its place.
    pub(crate) fn enroll<S: Source>(
        &self,
        socket: &mut S,
        place: usize,
        interests: Interest,
    ) -> io::Result<()>
        ensures { S.keeps socket.old socket.new }
    {
        self.registry.register(socket, Token(place), interests)
    }

    /// Has this and nothing else be reported of a socket at its place from now on, also where it came before.
    pub(crate) fn enroll_anew<S: Source>(
        &self,
        socket: &mut S,
        place: usize,
        interests: Interest,
    ) -> io::Result<()>
        ensures { S.keeps socket.old socket.new }
    {
        self.registry.reregister(socket, Token(place), interests)
    }

    /// Asks the poll what is new, and waits for nothing.
    pub(crate) fn look(&self) {
        if let Some(mut watch) = self.watch.try_lock() {
            watch.ask(&self.board, Duration::ZERO);
        }
    }

    /// Rests until somebody is to be called: one whose last call has found nothing, and of whom something was reported
    /// since, or all where the doors close. It lasts as long as a rest does at most, whatever is reported of others.
    pub(crate) fn rest(&self) {
        if !self.board.is_due() {
            if let Some(mut watch) = self.watch.try_lock() {
                let most = Duration::from_millis(self.patience.rest_milliseconds());
                watch.wait(&self.board, most);
            }
        }
        // Who is not called now has nothing of which the next rest would end at once.
        self.board.end_rest();
    }
}

impl<H: Net + Clock + Eprint + Copy + Drop> Watch<H> {
    /// Waits until somebody is to be called or the doors close, for at most so long.
    fn wait(&mut self, board: &Board, most: Duration) {
        let mut left = most;
        for _ in 0..u64::MAX {
            let before = board.now();
            let is_new = self.ask(board, left);
            if !is_new || board.is_due() {
                return;
            }
            left = left.saturating_sub(Duration::from_nanos(board.now().saturating_sub(before)));
            if left.is_zero() {
                return;
            }
        }
    }

    /// Waits until something is new, for at most so long, and reports that and how late it is. It says whether something
    /// is new.
    fn ask(&mut self, board: &Board, most: Duration) -> bool {
        if self.poll.poll(&mut self.events, Some(most)).is_err() {
            // Nothing is known then, so that all is to be tried.
            thread::sleep(&self.host, most);
            board.ring_all();
        }
        for event in &self.events {
            let token = event.token();
            if token != INPUT {
                board.ring(token.0, event.is_read_closed());
            } else if event.is_read_closed() && !board.is_closing() {
                say_closing(&self.host);
                board.close();
            }
        }
        if let Ok(now) = Instant::now(&self.host) {
            board.set_now(nanoseconds(now.duration_since(self.start)));
        }
        board.add_look();
        !self.events.is_empty()
    }
}

/// The nanoseconds of a time, as far as 64 bits hold them.
fn nanoseconds(time: Duration) -> u64 {
    time.as_nanos().min(u128::from(u64::MAX)) as u64
}
