//! Connections are polled, and the next request in line becomes a posting.
ghost use Rattle.std.specs.Prelude.{◌≡◌, ◌<◌, ◌&&◌, ◌||◌, not, true, length, nat_eq, IfOk};
ghost use Rattle.std.specs.List.{filter};
ghost use Rattle.conn_future.specs.Stages.{stage_of};
ghost use Rattle.conn_future.specs.declared.stage.Stage.TheVariants as Stages;
ghost use Rattle.run_door_front.specs.Keeping.{IsOrdered, asks as asking, asks_there, is_open_there};
ghost use Rattle.run_door_front.specs.NextSteps.{Answers, Hands, IsPolled, IsPolledAt, Polls, PollsAll, lined};
ghost use Rattle.run_door_front.specs.NextSteps.{queued, listing};
ghost use Rattle.run_door_front.specs.Moving.{read_on, written_on, has_moved, any_moved, HasWaited, HaveWaited};
ghost use Rattle.run_door_front.specs.Moving.{HaveWaitedAt};

use crate::link::{Client, PendingReply};
use conn_future::Stage;
use futures::task::Poll;
use jsonrpc_postings::posting_of;
use jsonrpc_text::read_message;
use office_core::Posting;
use outside_polling::PollWire;
use std::alloc::{AllocError, Global};

/// What a poll of a connection came to: whether bytes moved, and whether it came to ask.
#[derive(Clone, Copy)]
pub(crate) struct Polled {
    pub(crate) moved: bool,
    pub(crate) asks: bool,
}

/// Polls each open connection. One whose request is whole then comes to the end of the queue, and one that is over is
/// open no more. It says whether bytes moved. After want of memory nothing is sent of the connections.
pub(crate) fn poll_all<W: PollWire + Drop>(
    connections: &mut Vec<Client<W>>,
    opened: &mut Vec<usize>,
    queue: &mut Vec<usize>,
) -> Result<bool, AllocError>
    requires { IsOrdered connections.old.items opened.old.items queue.old.items }
    ensures { IfOk result (λ moved. PollsAll
        (queued connections.old.items opened.old.items queue.old.items)
        (queued connections.new.items opened.new.items queue.new.items)
        × (moved ≡ any_moved connections.old.items connections.new.items)
        × HaveWaited connections.old.items connections.new.items) }
{
    let moved = poll_open(connections, opened.as_slice(), queue)?;
    keep_open(connections, opened);
    Ok(moved)
}

/// Keeps the numbers of connections that are open.
fn keep_open<W: PollWire + Drop>(connections: &[Client<W>], numbers: &mut Vec<usize>)
    ensures { numbers.new.items ≡ filter (is_open_there connections.now) numbers.old.items }
{
    numbers.retain(|number| is_open_at(connections, *number));
}

/// Polls the connections of these numbers.
fn poll_open<W: PollWire + Drop>(
    connections: &mut Vec<Client<W>>,
    opened: &[usize],
    queue: &mut Vec<usize>,
) -> Result<bool, AllocError>
    requires { IsOrdered connections.old.items opened.now queue.old.items }
    ensures { IfOk result (λ moved. Polls opened.now
        (lined connections.old.items queue.old.items)
        (lined connections.new.items queue.new.items)
        × (moved ≡ any_moved connections.old.items connections.new.items)
        × HaveWaitedAt opened.now connections.old.items connections.new.items) }
{
    let mut moved = false;
    for number in opened {
        moved |= poll_at(connections, *number, queue)?;
    }
    Ok(moved)
}

/// Polls the connection of a number, which comes to the end of the queue where its request is whole then.
fn poll_at<W: PollWire + Drop>(
    connections: &mut Vec<Client<W>>,
    number: usize,
    queue: &mut Vec<usize>,
) -> Result<bool, AllocError>
    requires { number < length connections.old.items }
    ensures { IfOk result (λ moved. (at : IsPolledAt number
        (lined connections.old.items queue.old.items)
        (lined connections.new.items queue.new.items))
        × (moved ≡ has_moved at.link at.later) × HasWaited at.link at.later) }
{
    let Polled { moved, asks } = connections[number].poll()?;
    if asks {
        queue.push(number)?;
    }
    Ok(moved)
}

/// Whether the connection of a number is open.
fn is_open_at<W: PollWire + Drop>(connections: &[Client<W>], number: usize) -> bool
    ensures { result ≡ is_open_there connections.now number }
{
    match connections.get(number) {
        Some(connection) => connection.is_open(),
        None => false,
    }
}

/// The posting of the request of a connection, which is whole.
pub(crate) fn hand_out<W: PollWire + Drop>(
    alloc: Global,
    connections: &mut Vec<Client<W>>,
    traffics: &mut Vec<usize>,
    number: usize,
) -> Result<Posting, AllocError>
    requires { asks_there connections.old.items number ≡ true }
    ensures { IfOk result (λ posting. Hands number posting
        (listing connections.old.items traffics.old.items)
        (listing connections.new.items traffics.new.items)) }
{
    let place = traffics.len();
    let posting = connections[number].ask(alloc, place)?;
    traffics.push(number)?;
    Ok(posting)
}

impl<W: PollWire + Drop> Client<W> {
    /// Whether a request is whole that was not posted yet.
    fn asks(&self) -> bool
        ensures { result ≡ asking self.now }
    {
        self.task.stage() == Stage::Asks
    }

    /// Reads and writes as far as the wire goes.
    pub(crate) fn poll(&mut self) -> Result<Polled, AllocError>
        ensures { IfOk result (λ came. IsPolled self.old self.new
            × (came.asks ≡ (not (asking self.old) && asking self.new)) × (came.moved ≡ has_moved self.old self.new)
            × HasWaited self.old self.new) }
    {
        let asked = self.asks();
        let read = self.task.read().len();
        let written = self.task.written().len();
        match self.task.poll() {
            Poll::Pending => Ok(self.polled(asked, read, written)),
            Poll::Ready(Ok(())) => Ok(self.polled(asked, read, written)),
            Poll::Ready(Err(AllocError)) => Err(AllocError),
        }
    }

    /// What a poll came to, before which the connection asked or not, and so many bytes had been read and written.
    fn polled(&self, asked: bool, read: usize, written: usize) -> Polled
        ensures asks { result.asks ≡ (not asked && asking self.now) }
        ensures moved { result.moved ≡
            (not (nat_eq (read_on self.now) read) || not (nat_eq (written_on self.now) written)) }
    {
        Polled {
            moved: self.task.read().len() != read || self.task.written().len() != written,
            asks: !asked && self.asks(),
        }
    }

    /// The posting of the request that is whole, which waits for its answer then. The posting has this place.
    fn ask(&mut self, alloc: Global, place: usize) -> Result<Posting, AllocError>
        requires { stage_of self.old.seen.kept.next ≡ Stages.Asks }
        ensures { IfOk result (λ posting. Answers place posting self.old self.new) }
    {
        match self.task.asked() {
            None => unreachable!(),
            Some(body) => {
                let read = read_message(alloc, body.as_slice())?;
                let posting = posting_of(alloc, self.service, &read)?;
                self.pending = Some(PendingReply { place, read });
                Ok(posting)
            }
        }
    }
}
