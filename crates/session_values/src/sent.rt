ghost use Rattle.std.specs.Prelude.{◌≡◌, map, option_map, slice_get};
ghost use Rattle.std.specs.Option.{option_copied};
ghost use Rattle.behaviour_tree.specs.FormedServices.{sent_to};
ghost use Rattle.behaviour_tree.specs.PartsView.{operation_view, parts_of, parts_view, port_view};
ghost use Rattle.session_calculus.specs.Accepted as spec;
ghost use Rattle.session_values.specs.Sends.{operation_at_port, sent_view};

use crate::actor::Actor;
use behaviour_tree::{Operation, Parts, Port};

/// An operation that is sent to: one of the program, or that of the port that every service has.
#[derive(Clone, Copy)]
pub enum Sent<'a> {
    Console,
    Declared(&'a Operation),
}

/// The operation of a number of a port of a service.
pub fn operation_sent<'a>(actor: Actor<'a>, port: u32, op: u32) -> Option<Sent<'a>>
    ensures { option_map sent_view result
        ≡ spec.operation_sent (parts_of actor.entry.program.now) actor.entry.service port op }
{
    let parts = actor.program.parts();
    match parts.services.get(actor.service as usize) {
        None => None,
        Some(service) => operation_of(parts, &service.ports, port, op),
    }
}

/// The operation of a number of one of some ports, after which stands the one that every service has.
fn operation_of<'a>(parts: &'a Parts, ports: &[Port], port: u32, op: u32) -> Option<Sent<'a>>
    ensures { option_map sent_view result
        ≡ operation_at_port (map (sent_to (parts_view parts.now).interfaces) (map port_view ports.now)) port op }
{
    let port = port as usize;
    if port < ports.len() {
        return declared(parts, &ports[port], op);
    }
    if port > ports.len() {
        return None;
    }
    if op == 0 { Some(Sent::Console) } else { None }
}

/// The operation of a number that can be sent to a port.
fn declared<'a>(parts: &'a Parts, port: &Port, op: u32) -> Option<Sent<'a>>
    ensures { option_map sent_view result
        ≡ slice_get (sent_to (parts_view parts.now).interfaces (port_view port.now)) op }
{
    match behaviour_tree::operation_sent(parts, port, op) {
        None => None,
        Some(operation) => Some(Sent::Declared(operation)),
    }
}
