//! What is due is written before the connections come back.
ghost use Rattle.std.specs.Prelude.{◌≡◌, ◌-◌, ◌^◌, ◌<◌, ◌&&◌, suc, not, nat_eq, if◌then◌else◌, IfOk};
ghost use Rattle.run_theorem.specs.Lines.{most_waits};
ghost use Rattle.run_door_front.specs.Draining.{AreWritten, Drains, WritesOn, is_writing as writing, any_writing};
ghost use Rattle.run_door_front.specs.Moving.{has_moved, any_moved};

use crate::kept::Kept;
use crate::link::Client;
use crate::next::rest;
use crate::port::Listener;
use conn_future::Stage;
use outside_doors::Door;
use outside_polling::PollWire;
use std::alloc::AllocError;

/// The most rests in a row after which nothing moves.
const MOST_RESTS: u32 = 1_000_000;

/// What a try at writing came to: whether a text still goes out, and whether bytes moved.
#[derive(Clone, Copy)]
struct Wrote {
    writes: bool,
    moved: bool,
}

impl<D: Door + Drop> Kept<D> {
    /// The doors and the connections, once all that is due is written, unless a wire can move nothing for too long.
    /// Where the front halted nothing more is done.
    pub fn into_drained(self) -> Result<(Vec<Listener<D>>, Vec<Client<D::W>>), AllocError>
        ensures { IfOk result (λ parts. Drains self.halted self.doors parts.0.items self.connections parts.1.items) }
    {
        let halted = self.halted;
        let (mut doors, mut connections) = self.into_parts();
        drain(halted, &mut doors, &mut connections)?;
        Ok((doors, connections))
    }
}

/// Polls the connections on which a text goes out until it is out, with a rest between, unless the front halted.
fn drain<D: Door + Drop>(
    halted: bool,
    doors: &mut [Listener<D>],
    connections: &mut [Client<D::W>],
) -> Result<(), AllocError>
    ensures { IfOk result (λ _. Drains halted doors.old doors.new connections.old connections.new) }
{
    if halted {
        return Ok(());
    }
    let mut left = u64::MAX;
    let mut still = 0;
    loop {
        let Wrote { writes, moved } = write_all(connections)?;
        if !writes {
            return Ok(());
        }
        if left == 0 || is_quiet(still, moved) {
            return Ok(());
        }
        still = still_after(still, moved);
        rest(doors);
        left -= 1;
    }
}

/// Whether nothing moved after as many rests in a row as may be.
fn is_quiet(still: u32, moved: bool) -> bool
    ensures { result ≡ (not moved && nat_eq still most_waits) }
{
    !moved && still == MOST_RESTS
}

/// After how many rests in a row nothing moved, after a turn in which bytes moved or not.
fn still_after(still: u32, moved: bool) -> u32
    requires { still < 2 ^ 32 - 1 }
    ensures { result ≡ (if moved then 0 else suc still) }
{
    if moved {
        return 0;
    }
    still + 1
}

/// Polls the connections on which a text goes out. It says whether one still does, and whether bytes moved.
fn write_all<W: PollWire + Drop>(connections: &mut [Client<W>]) -> Result<Wrote, AllocError>
    ensures { IfOk result (λ wrote. (wrote.writes ≡ any_writing connections.new)
        × (wrote.moved ≡ any_moved connections.old connections.new)
        × AreWritten connections.old connections.new) }
{
    let mut writes = false;
    let mut moved = false;
    for connection in connections.iter_mut() {
        let wrote = connection.write_on()?;
        writes |= wrote.writes;
        moved |= wrote.moved;
    }
    Ok(Wrote { writes, moved })
}

impl<W: PollWire + Drop> Client<W> {
    /// Goes on with the text that goes out, if one does. It says whether one still does, and whether bytes moved.
    fn write_on(&mut self) -> Result<Wrote, AllocError>
        ensures { IfOk result (λ wrote. (wrote.writes ≡ writing self.new) × (wrote.moved ≡ has_moved self.old self.new)
            × WritesOn self.old self.new) }
    {
        if !self.is_writing() {
            return Ok(Wrote {
                writes: false,
                moved: false,
            });
        }
        let polled = self.poll()?;
        Ok(Wrote {
            writes: self.is_writing(),
            moved: polled.moved,
        })
    }

    /// Whether a text goes out.
    fn is_writing(&self) -> bool
        ensures { result ≡ writing self.now }
    {
        self.task.stage() == Stage::Writes
    }
}
