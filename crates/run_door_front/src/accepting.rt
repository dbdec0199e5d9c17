//! Connections come in at doors.
ghost use Rattle.std.specs.Prelude.{◌≡◌, ◌∷◌, [], IfNone, IfSome, IfOk, MatchOption, None, length, map};
ghost use Rattle.outside_doors.specs.Counts.{added, has_ended};
ghost use Rattle.outside_doors.specs.Attempts.{ComesAt};
ghost use Rattle.conn_future.specs.declared.stage.Stage.TheVariants as Stages;
ghost use Rattle.conn_future.specs.Stages.{stage_of};
ghost use Rattle.conn_future.specs.Talking.{IsTalking};
ghost use Rattle.run_door_front.specs.Keeping.{is_open as is_open_now};
ghost use Rattle.run_door_front.specs.NextSteps.{Accepts, GoesOn, IsTried, doorway, has_room as room, rested_at};
ghost use Rattle.run_door_front.specs.Rounds.{rests_of};

use crate::link::Client;
use crate::port::Listener;
use conn_future::{ConnTask, Stage};
use outside_doors::{Accept, Door};
use outside_polling::PollWire;
use outside_traits::Failed;
use std::alloc::{AllocError, Global};

/// The most connections that are open at once.
const MOST_OPEN: usize = 1024;

/// Takes in who comes at each door, in the order of the doors. After want of memory nothing is sent of the doors and
/// the connections.
pub(crate) fn accept_all<D: Door + Drop>(
    alloc: Global,
    doors: &mut [Listener<D>],
    connections: &mut Vec<Client<D::W>>,
    opened: &mut Vec<usize>,
    most: u32,
) -> Result<(), AllocError>
    ensures { IfOk result (λ _. Accepts (λ line. (wire : D.W) × (line ≡ (D.W.told wire).wire)) most
        (doorway doors.old connections.old.items opened.old.items)
        (doorway doors.new connections.new.items opened.new.items)
        × (map rests_of doors.new ≡ map rests_of doors.old)) }
{
    for door in doors.iter_mut() {
        accept_at(alloc, door, connections, opened, most)?;
    }
    Ok(())
}

/// Takes in who comes at a door, until nobody does, it ends, or no further connection may be taken.
fn accept_at<D: Door + Drop>(
    alloc: Global,
    door: &mut Listener<D>,
    connections: &mut Vec<Client<D::W>>,
    opened: &mut Vec<usize>,
    most: u32,
) -> Result<(), AllocError>
    ensures { IfOk result (λ _. Accepts (λ line. (wire : D.W) × (line ≡ (D.W.told wire).wire)) most
        (doorway (door.old ∷ []) connections.old.items opened.old.items)
        (doorway (door.new ∷ []) connections.new.items opened.new.items)
        × (door.new.door.rests ≡ door.old.door.rests)) }
{
    while has_room(connections.len(), opened.len(), most) {
        match door.accept() {
            None => return Ok(()),
            Some(wire) => {
                opened.push(connections.len())?;
                connections.push(Client::new(alloc, door.service(), wire))?;
            }
        }
    }
    Ok(())
}

/// Whether a further connection may be taken, where so many were accepted and so many of them are open.
fn has_room(accepted: usize, opened: usize, most: u32) -> bool
    ensures { result ≡ room most accepted opened }
{
    accepted < most as usize && opened < MOST_OPEN
}

impl<D: Door + Drop> Listener<D> {
    /// The service to which the door leads.
    pub(crate) fn service(&self) -> u32
        ensures { result ≡ self.now.service }
    {
        self.service
    }

    /// Whether the door has ended.
    pub(crate) fn has_ended(&self) -> bool
        ensures { result ≡ has_ended self.now.door }
    {
        self.ended
    }

    /// The connection that comes, where one does. A door that has ended is tried no more.
    fn accept(&mut self) -> Option<D::W>
        ensures goes { GoesOn self.old self.new }
        ensures nobody { IfNone result (IsTried self.old self.new) }
        ensures rests { self.new.door.rests ≡ self.old.door.rests }
        ensures wires { MatchOption result (self.new.door.wires ≡ self.old.door.wires)
            (λ _. self.new.door.wires ≡ added self.old.door.wires 1) }
        ensures comes { IfSome result (λ wire. ComesAt self.old.door.place (D.W.told wire)) }
    {
        if self.ended {
            return None;
        }
        match self.door.try_accept() {
            Ok(Accept::Came(wire)) => Some(wire),
            Ok(Accept::NotYet) => None,
            Ok(Accept::Closed) => {
                self.ended = true;
                None
            }
            Err(Failed) => {
                self.ended = true;
                self.failed = true;
                None
            }
        }
    }

    /// Waits for a while.
    pub(crate) fn rest(&mut self)
        ensures { self.new ≡ rested_at self.old }
    {
        self.door.rest();
    }
}

impl<W: PollWire + Drop> Client<W> {
    /// A connection on which nothing passed yet.
    fn new(alloc: Global, service: u32, wire: W) -> Client<W>
        ensures service { result.service ≡ service }
        ensures pending { result.pending ≡ None }
        ensures row { result.in_a_row ≡ (W.told wire).in_a_row }
        ensures stage { stage_of result.seen.kept.next ≡ Stages.Reads }
        ensures talks { IsTalking (W.told wire).wire result.seen [] [] }
    {
        Client {
            service,
            task: ConnTask::new(alloc, wire),
            pending: None,
        }
    }

    /// Whether the connection is not over.
    pub(crate) fn is_open(&self) -> bool
        ensures { result ≡ is_open_now self.now }
    {
        match self.task.stage() {
            Stage::Reads | Stage::Asks | Stage::Owes | Stage::Writes | Stage::Spent => true,
            Stage::Ended | Stage::Closed | Stage::ReadFailed | Stage::WriteFailed => false,
        }
    }
}
