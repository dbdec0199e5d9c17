ghost use Rattle.std.specs.Prelude.{◌≡◌, [], ◌∷◌, ◌++◌, map, slice_get, option_map, IfNone, MatchOption, ◌+◌};
ghost use Rattle.std.specs.List.{position_from};
ghost use Rattle.std.specs.Option.{option_copied};
ghost use Rattle.behaviour_tree.specs.FormedServices.{sent_to};
ghost use Rattle.behaviour_tree.specs.Operations.{has_name, in_32_bits, input_interfaces, is_among, mentions, operation_at, operations_in, operations_of, rest_of, service_operations};
ghost use Rattle.behaviour_tree.specs.Operations as spec;
ghost use Rattle.behaviour_tree.specs.PartsView.{interface_view, operation_view, parts_of, parts_view, port_view, service_view};

use crate::program::{Interface, Operation, Parts, Port, Program, Service};

impl Program {
    /// The operation of a number of the service of a number.
    pub fn operation(&self, service: u32, op: u32) -> Option<&Operation>
        ensures { option_map operation_view (option_copied result) ≡ operation_at (parts_of self.now) service op }
    {
        let parts = self.parts();
        match parts.services.get(service as usize) {
            None => None,
            Some(service) => operation_of(parts, service, op),
        }
    }

    /// The number of the first operation of a name of the service of a number.
    pub fn operation_named(&self, service: u32, name: &str) -> Option<u32>
        ensures { result ≡ spec.operation_named (parts_of self.now) service name.now }
    {
        let parts = self.parts();
        match parts.services.get(service as usize) {
            None => None,
            Some(service) => number_named(parts, service, name),
        }
    }
}

fn number_named(parts: &Parts, service: &Service, name: &str) -> Option<u32>
    ensures { result ≡ spec.number_named (parts_view parts.now) name.now (service_view service.now) }
{
    let mut passed = 0;
    let mut inputs = InputInterfaces::new(&service.ports);
    while let Some(number) = inputs.next() {
        let operations = operations_at(&parts.interfaces, number);
        if let Some(place) = place_named(operations, name) {
            return added(passed, place);
        }
        match added(passed, operations.len()) {
            None => return None,
            Some(sum) => passed = sum,
        }
    }
    None
}

/// The place of the first operation of a name.
fn place_named(operations: &[Operation], name: &str) -> Option<usize>
    ensures { result ≡ position_from (has_name name.now) 0 (map operation_view operations.now) }
{
    for (place, operation) in operations.iter().enumerate() {
        if operation.name.as_str() == name {
            return Some(place);
        }
    }
    None
}

fn added(number: u32, more: usize) -> Option<u32>
    ensures { result ≡ in_32_bits (number + more) }
{
    if more <= (u32::MAX - number) as usize {
        Some(number + more as u32)
    } else {
        None
    }
}

/// The operations of the interface of a number, none where there is none.
fn operations_at(interfaces: &[Interface], number: u32) -> &[Operation]
    ensures { map operation_view result.now ≡ operations_in (slice_get (map interface_view interfaces.now) number) }
{
    match interfaces.get(number as usize) {
        None => &[],
        Some(interface) => interface.operations.as_slice(),
    }
}

/// The operation of a number that can be sent to a port: none of an input port.
pub fn operation_sent<'a>(parts: &'a Parts, port: &Port, op: u32) -> Option<&'a Operation>
    ensures { option_map operation_view (option_copied result)
        ≡ slice_get (sent_to (parts_view parts.now).interfaces (port_view port.now)) op }
{
    if port.input {
        return None;
    }
    operation_among(&parts.interfaces, &port.interfaces, op)
}

/// The operation of a number among those of the interfaces of some numbers.
fn operation_among<'a>(
    interfaces: &'a [Interface],
    numbers: &[u32],
    op: u32,
) -> Option<&'a Operation>
    ensures { option_map operation_view (option_copied result)
        ≡ slice_get (operations_of (map interface_view interfaces.now) numbers.now) op }
{
    let mut left = op as usize;
    for number in numbers {
        let operations = operations_at(interfaces, *number);
        if left < operations.len() {
            return Some(&operations[left]);
        }
        left -= operations.len();
    }
    None
}

fn operation_of<'a>(parts: &'a Parts, service: &Service, op: u32) -> Option<&'a Operation>
    ensures { option_map operation_view (option_copied result)
        ≡ slice_get (service_operations (parts_view parts.now) (service_view service.now)) op }
{
    let mut left = op as usize;
    let mut inputs = InputInterfaces::new(&service.ports);
    while let Some(number) = inputs.next() {
        let operations = operations_at(&parts.interfaces, number);
        if left < operations.len() {
            return Some(&operations[left]);
        }
        left -= operations.len();
    }
    None
}

/// A walk over the input interfaces of some ports, each once.
#[derive(Drop)]
struct InputInterfaces<'a> {
    ports: &'a [Port],
    port: usize,
    at: usize,
}

impl<'a> InputInterfaces<'a> {
    fn new(ports: &'a [Port]) -> InputInterfaces<'a>
        ensures { rest_of result ≡ input_interfaces (map port_view ports.now) }
    {
        InputInterfaces {
            ports,
            port: 0,
            at: 0,
        }
    }

    /// The next input interface that was not mentioned before; none where nothing is left, and then nothing comes
    /// again.
    fn next(&mut self) -> Option<u32>
        ensures rest { MatchOption result (rest_of self.old ≡ []) (λ n. rest_of self.old ≡ n ∷ rest_of self.new) }
        ensures ended { IfNone result (rest_of self.new ≡ []) }
    {
        let ports = self.ports;
        while let Some(port) = ports.get(self.port) {
            let inputs = inputs_of(port);
            match inputs.get(self.at) {
                None => {
                    self.port += 1;
                    self.at = 0;
                }
                Some(&number) => {
                    let repeated = is_repeated(&ports[..self.port], &inputs[..self.at], number);
                    self.at += 1;
                    if !repeated {
                        return Some(number);
                    }
                }
            }
        }
        None
    }
}

/// The interfaces by which a port takes messages.
fn inputs_of(port: &Port) -> &[u32]
    ensures { result.now ≡ spec.inputs_of (port_view port.now) }
{
    if port.input { &port.interfaces } else { &[] }
}

/// Whether a number is mentioned by ports before or beside it.
fn is_repeated(before: &[Port], beside: &[u32], number: u32) -> bool
    ensures { result ≡ is_among (mentions (map port_view before.now) ++ beside.now) number }
{
    is_mentioned(before, number) || beside.contains(&number)
}

fn is_mentioned(ports: &[Port], number: u32) -> bool
    ensures { result ≡ is_among (mentions (map port_view ports.now)) number }
{
    for port in ports {
        if inputs_of(port).contains(&number) {
            return true;
        }
    }
    false
}
