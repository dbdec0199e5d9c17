//! Where the doors of a run are opened.
ghost use Rattle.std.specs.Prelude.{◌≡◌, ◌&&◌, [], ◌∷◌, false, map, IfOk, OnOk};
ghost use Rattle.behaviour_tree.specs.PartsView.{parts_of, port_view, service_view};
ghost use Rattle.run_theorem.specs.Ports.{doors_of, is_door as is_door_part};
ghost use Rattle.run_doors.specs.Steps.{Opens, doors_at, opened_by};

use behaviour_tree::{Port as PortOf, Program, Service, numbered};
use outside_doors::{Door, Doors};
use program_locations::is_socket;
use run_door_front::Listener;
use std::alloc::{AllocError, Global};

/// The doors that were opened, and whether one could not be.
#[derive(Drop)]
pub(crate) struct Opening<D: Door + Drop> {
    pub ports: Vec<Listener<D>>,
    pub failed: bool,
}

/// Opens a door at each location where a program has one, in the order of its text.
pub(crate) fn open_doors<D: Doors>(
    alloc: Global,
    program: &Program,
    doors: &mut D,
) -> Result<Opening<D::D>, AllocError>
    ensures { IfOk result (λ opening. Opens (doors_of (parts_of program.now))
        (opened_by (D.told doors.old) [] false)
        (opened_by (D.told doors.new) opening.ports.items opening.failed)) }
{
    let mut opening = Opening {
        ports: Vec::new(alloc),
        failed: false,
    };
    let services = program.services();
    for (place, service) in services.iter().enumerate() {
        let number = numbered(place);
        open_service(doors, number, service, &mut opening)?;
    }
    Ok(opening)
}

/// Opens a door at each location where the service of a number has one.
fn open_service<D: Doors>(
    doors: &mut D,
    number: u32,
    service: &Service,
    opening: &mut Opening<D::D>,
) -> Result<(), AllocError>
    ensures { OnOk result (Opens (doors_at number (map port_view service.now.ports.items))
        (opened_by (D.told doors.old) opening.old.ports.items opening.old.failed)
        (opened_by (D.told doors.new) opening.new.ports.items opening.new.failed)) }
{
    for port in &service.ports {
        open_port(doors, number, port, opening)?;
    }
    Ok(())
}

/// Opens a door at the location of a port, if it has one there.
fn open_port<D: Doors>(
    doors: &mut D,
    number: u32,
    port: &PortOf,
    opening: &mut Opening<D::D>,
) -> Result<(), AllocError>
    ensures { OnOk result (Opens (doors_at number (port_view port.now ∷ []))
        (opened_by (D.told doors.old) opening.old.ports.items opening.old.failed)
        (opened_by (D.told doors.new) opening.new.ports.items opening.new.failed)) }
{
    if !is_door(port) {
        return Ok(());
    }
    open_at(doors, number, port.location.as_str(), opening)
}

/// Opens a door at a location, which leads to the service of a number.
fn open_at<D: Doors>(
    doors: &mut D,
    number: u32,
    location: &str,
    opening: &mut Opening<D::D>,
) -> Result<(), AllocError>
    ensures { OnOk result (Opens (record { service = number; location = location.now } ∷ [])
        (opened_by (D.told doors.old) opening.old.ports.items opening.old.failed)
        (opened_by (D.told doors.new) opening.new.ports.items opening.new.failed)) }
{
    match doors.open(location) {
        Ok(door) => opening.ports.push(Listener::new(number, door))?,
        Err(_) => opening.failed = true,
    }
    Ok(())
}

/// Whether a port is an input port of a socket.
fn is_door(port: &PortOf) -> bool
    ensures { result ≡ is_door_part (port_view port.now) }
{
    port.input && is_socket(port.location.as_str())
}
