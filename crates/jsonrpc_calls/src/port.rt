//! The port that a call goes out by.
ghost use Rattle.std.specs.Prelude.{◌≡◌, option_map};
ghost use Rattle.std.specs.Option.{option_copied};
ghost use Rattle.behaviour_tree.specs.PartsView.{parts_of, parts_view, port_view};
ghost use Rattle.jsonrpc_calls.specs.CallTexts as spec;

use behaviour_tree::{Parts, Port, Program};
use office_core::Outgoing;

/// The location that a call is made to, that of its port; empty where there is no such port.
pub fn location_called<'a>(program: &'a Program, out: &Outgoing) -> &'a str
    ensures { result.now ≡ spec.location_called (parts_of program.now) out.now }
{
    match port_called(program.parts(), out) {
        None => "",
        Some(port) => port.location.as_str(),
    }
}

/// The port that a call goes out by.
pub(crate) fn port_called<'a>(parts: &'a Parts, out: &Outgoing) -> Option<&'a Port>
    ensures { option_map port_view (option_copied result) ≡ spec.port_called (parts_view parts.now) out.now }
{
    match parts.services.get(out.service as usize) {
        None => None,
        Some(service) => service.ports.get(out.port as usize),
    }
}
