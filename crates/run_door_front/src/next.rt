//! The next posting of a front over doors.
ghost use Rattle.std.specs.Prelude.{◌≡◌, ◌&&◌, ◌||◌, ◌∷◌, [], nat_lt, true, false, IfOk, OnOk, IsErr, MatchOption};
ghost use Rattle.std.specs.Prelude.{MatchResult};
ghost use Rattle.std.specs.List.{list_all};
ghost use Rattle.outside_doors.specs.Counts.{has_ended};
ghost use Rattle.run_door_front.specs.Keeping.{ListenerTold, IsOrdered, closed_off, owes_there};
ghost use Rattle.run_door_front.specs.NextSteps.{Looks, after_rest, going, going_of, rested_first, rested_open};
ghost use Rattle.run_door_front.specs.Rounds.{ByRounds};

use crate::accepting::accept_all;
use crate::kept::Kept;
use crate::link::Client;
use crate::polling::{hand_out, poll_all};
use crate::port::Listener;
use outside_doors::Door;
use outside_polling::PollWire;
use run_theorem::Next;
use std::alloc::{AllocError, Global};

/// The most postings of a front.
const MOST_POSTINGS: usize = 4_294_967_295;

impl<D: Door + Drop> Kept<D> {
    /// The next posting, as a front gives it that this is lent to. After want of memory nothing is sent of what
    /// passed, and no posting comes any more.
    pub fn next_posting(&mut self, alloc: Global) -> Result<Next, AllocError>
        ensures looks { MatchResult result
            (λ next. (self.old.spent ≡ false) × (self.new.spent ≡ false)
            × Looks (λ line. (wire : D.W) × (line ≡ (D.W.told wire).wire)) self.old.most next (going_of self.old)
            (going_of self.new))
            (λ _. self.new.spent ≡ true) }
        ensures rounds { IfOk result (λ next. ByRounds (λ line. (wire : D.W) × (line ≡ (D.W.told wire).wire))
            self.old.most next (going_of self.old) (going_of self.new)) }
        ensures ordered { OnOk result (IsOrdered self.new.connections self.new.opened self.new.queue) }
        // A front of which memory ran out answers want of memory from then on.
        ensures refuses { self.old.spent ≡ true → IsErr result × (self.new.spent ≡ true) }
        ensures most { self.new.most ≡ self.old.most }
        ensures halted { self.new.halted ≡ self.old.halted }
    {
        if self.spent {
            return Err(AllocError);
        }
        self.spent = true;
        let next = look(
            alloc,
            &mut self.doors,
            &mut self.connections,
            &mut self.opened,
            &mut self.queue,
            &mut self.traffics,
            self.most,
        )?;
        self.spent = false;
        Ok(next)
    }
}

/// Takes in who comes and polls all open connections, until a request is whole or nothing comes any more, or until
/// nobody came or went; then it rests once.
fn look<D: Door + Drop>(
    alloc: Global,
    doors: &mut [Listener<D>],
    connections: &mut Vec<Client<D::W>>,
    opened: &mut Vec<usize>,
    queue: &mut Vec<usize>,
    traffics: &mut Vec<usize>,
    most: u32,
) -> Result<Next, AllocError>
    requires { IsOrdered connections.old.items opened.old.items queue.old.items }
    ensures looks { IfOk result (λ next. Looks (λ line. (wire : D.W) × (line ≡ (D.W.told wire).wire)) most next
        (going doors.old connections.old.items opened.old.items queue.old.items traffics.old.items)
        (going doors.new connections.new.items opened.new.items queue.new.items traffics.new.items)) }
    ensures rounds { IfOk result (λ next. ByRounds (λ line. (wire : D.W) × (line ≡ (D.W.told wire).wire)) most next
        (going doors.old connections.old.items opened.old.items queue.old.items traffics.old.items)
        (going doors.new connections.new.items opened.new.items queue.new.items traffics.new.items)) }
{
    if MOST_POSTINGS <= traffics.len() {
        return Ok(Next::End);
    }
    let mut changed = false;
    loop {
        let known = connections.len();
        accept_all(alloc, doors, connections, opened, most)?;
        let among = opened.len();
        let moved = poll_all(connections, opened, queue)?;
        if let Some(number) = first_in_line(queue) {
            return Ok(Next::Posting(hand_out(alloc, connections, traffics, number)?));
        }
        if is_done(doors, connections, opened, most) {
            return Ok(Next::End);
        }
        if has_changed(known, connections.len(), among, opened.len()) {
            changed = true;
            continue;
        }
        rest(doors);
        if changed || moved {
            return Ok(Next::Moved);
        }
        return Ok(Next::NotYet);
    }
}

/// Whether there are more connections than were known, or fewer are open than were.
fn has_changed(known: usize, connections: usize, among: usize, opened: usize) -> bool
    ensures { result ≡ (nat_lt known connections || nat_lt opened among) }
{
    known < connections || opened < among
}

/// The first of the queue, which leaves it.
fn first_in_line(queue: &mut Vec<usize>) -> Option<usize>
    ensures { MatchOption result
        ((queue.old.items ≡ []) × (queue.new.items ≡ []))
        (λ number. queue.old.items ≡ number ∷ queue.new.items) }
{
    if queue.is_empty() {
        return None;
    }
    Some(queue.remove(0))
}

/// Whether nothing comes any more: no connection can come, and each that is open waits for an answer.
fn is_done<D: Door + Drop>(
    doors: &[Listener<D>],
    connections: &[Client<D::W>],
    opened: &[usize],
    most: u32,
) -> bool
    ensures { result ≡ (closed_off most doors.now connections.now && list_all (owes_there connections.now) opened.now) }
{
    is_closed_off(doors, connections, most) && all_owe(connections, opened)
}

/// Whether no connection can come any more.
fn is_closed_off<D: Door + Drop>(
    doors: &[Listener<D>],
    connections: &[Client<D::W>],
    most: u32,
) -> bool
    ensures { result ≡ closed_off most doors.now connections.now }
{
    most as usize <= connections.len() || have_ended(doors)
}

/// Whether each door has ended.
fn have_ended<D: Door + Drop>(doors: &[Listener<D>]) -> bool
    ensures { result ≡ list_all (λ (p : ListenerTold). has_ended p.door) doors.now }
{
    doors.iter().all(|door| door.has_ended())
}

/// Whether each of these connections waits for an answer.
fn all_owe<W: PollWire + Drop>(connections: &[Client<W>], numbers: &[usize]) -> bool
    ensures { result ≡ list_all (owes_there connections.now) numbers.now }
{
    numbers.iter().all(|number| owes_at(connections, *number))
}

/// Whether the connection of a number waits for an answer.
fn owes_at<W: PollWire + Drop>(connections: &[Client<W>], number: usize) -> bool
    ensures { result ≡ owes_there connections.now number }
{
    match connections.get(number) {
        Some(connection) => connection.owes_answer(),
        None => false,
    }
}

/// Waits for a while at the first door that has not ended, or else at the first of all.
pub(crate) fn rest<D: Door + Drop>(doors: &mut [Listener<D>])
    ensures { doors.new ≡ after_rest doors.old }
{
    if have_ended(doors) {
        rest_at_first(doors);
    } else {
        rest_at_open(doors);
    }
}

/// Waits for a while at the first door.
fn rest_at_first<D: Door + Drop>(doors: &mut [Listener<D>])
    ensures { doors.new ≡ rested_first doors.old }
{
    if let Some(first) = doors.first_mut() {
        first.rest();
    }
}

/// Waits for a while at the first door that has not ended.
fn rest_at_open<D: Door + Drop>(doors: &mut [Listener<D>])
    ensures { doors.new ≡ rested_open doors.old }
{
    for door in doors.iter_mut() {
        if !door.has_ended() {
            door.rest();
            return;
        }
    }
}
