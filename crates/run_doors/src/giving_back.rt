//! What comes back at the end of a run: the wires of its connections, and its doors.
ghost use Rattle.std.specs.Prelude.{◌≡◌, [], ◌∷◌, map, IfOk, OnOk};
ghost use Rattle.std.specs.List.{list_any};
ghost use Rattle.run_theorem.specs.Used.{has_failed};
ghost use Rattle.run_doors.specs.Steps.{Closes, GivesDoors, GivesWires, door_of, traffic_of, wire_of};

use jolie_trees::Bytes;
use outside_doors::{Door, Doors};
use run_door_front::{Client, Kept, Listener};
use run_record::Traffic;
use sqlite_items::Items;
use std::alloc::{AllocError, Global};

/// What came back: the bytes of the connections, and whether a door had failed.
#[derive(Drop)]
pub(crate) struct Back {
    pub traffic: Items<Traffic>,
    pub failed: bool,
}

/// Gives back the wires of all connections in the order in which they were accepted, and then the doors, once all that is
/// due is written.
pub(crate) fn give_back<D: Doors>(
    alloc: Global,
    doors: &mut D,
    kept: Kept<D::D>,
) -> Result<Back, AllocError>
    ensures { IfOk result (λ back. Closes kept
        (record { traffic = back.traffic; failed = back.failed })
        (D.told doors.old)
        (D.told doors.new)) }
{
    let (ports, connections) = kept.into_drained()?;
    let traffic = wires_back(alloc, doors, connections)?;
    let failed = doors_back(doors, ports);
    Ok(Back { traffic, failed })
}

/// Gives back the wires of connections in order. It says what was read and written on each.
fn wires_back<D: Doors>(
    alloc: Global,
    doors: &mut D,
    connections: Vec<Client<<D::D as Door>::W>>,
) -> Result<Items<Traffic>, AllocError>
    ensures traffic { IfOk result (λ traffic. traffic ≡ map traffic_of connections.items) }
    ensures doors { OnOk result (GivesWires (map wire_of connections.items)
        (D.told doors.old)
        (D.told doors.new)) }
{
    let mut traffic = Items::new(alloc);
    for connection in connections {
        let passed = wire_back(doors, connection);
        traffic.push(passed)?;
    }
    Ok(traffic)
}

/// Gives back the wire of a connection. It says what was read and written on it.
fn wire_back<D: Doors>(doors: &mut D, connection: Client<<D::D as Door>::W>) -> Traffic
    ensures traffic { result ≡ traffic_of connection }
    ensures doors { GivesWires (wire_of connection ∷ [])
        (D.told doors.old)
        (D.told doors.new) }
{
    let (wire, read, written) = connection.into_parts();
    doors.wire_back(wire);
    Traffic {
        read: Bytes::from_vec(read),
        written: Bytes::from_vec(written),
    }
}

/// Gives back doors in order. It says whether one of them had failed.
fn doors_back<D: Doors>(doors: &mut D, ports: Vec<Listener<D::D>>) -> bool
    ensures failed { result ≡ list_any has_failed (map door_of ports.items) }
    ensures doors { GivesDoors (map door_of ports.items)
        (D.told doors.old)
        (D.told doors.new) }
{
    let mut failed = false;
    for port in ports {
        failed |= door_back(doors, port);
    }
    failed
}

/// Gives back a door. It says whether it had failed.
fn door_back<D: Doors>(doors: &mut D, port: Listener<D::D>) -> bool
    ensures failed { result ≡ has_failed port.door }
    ensures doors { GivesDoors (port.door ∷ [])
        (D.told doors.old)
        (D.told doors.new) }
{
    let failed = port.failed();
    doors.door_back(port.into_door());
    failed
}
