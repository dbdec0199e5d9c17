//! The services of a program, and which of them is behind a location.

ghost use Rattle.std.specs.Prelude.{◌≡◌, ◌<◌, ◌^◌, length, map, true};
ghost use Rattle.std.specs.List.{position_from};
ghost use Rattle.behaviour_tree.specs.FormedNumbers.{are_numbered};
ghost use Rattle.behaviour_tree.specs.PartsView.{parts_of, service_view};
ghost use Rattle.office_core.specs.Accepted as spec;

use behaviour_tree::{Program, Service, numbered};
use program_locations::is_local;

pub fn services_of(program: &Program) -> &[Service]
    ensures services { map service_view result.now ≡ (parts_of program.now).services }
    ensures few { length result.now < 2 ^ 32 }
    ensures numbered { are_numbered (parts_of program.now) ≡ true }
{
    program.services()
}

/// The service of the program behind a local location.
pub fn service_behind(program: &Program, location: &str) -> Option<u32>
    ensures { result ≡ spec.service_behind (parts_of program.now) location.now }
{
    if !is_local(location) {
        return None;
    }
    place_at(services_of(program), location)
}

/// The number of the first service that has an input port at a location.
fn place_at(services: &[Service], location: &str) -> Option<u32>
    requires { length services.now < 2 ^ 32 }
    ensures { result ≡ position_from (spec.is_at location.now) 0 (map service_view services.now) }
{
    for (place, service) in services.iter().enumerate() {
        if is_at(service, location) {
            return Some(numbered(place));
        }
    }
    None
}

/// Whether a service has an input port at a location.
fn is_at(service: &Service, location: &str) -> bool
    ensures { result ≡ spec.is_at location.now (service_view service.now) }
{
    for port in &service.ports {
        if port.input && port.location.as_str() == location {
            return true;
        }
    }
    false
}
