ghost use Rattle.std.specs.Prelude.{◌≡◌, ◌++◌, IfOk, OnOk, flat_map, map};
ghost use Rattle.std.specs.List.{filter_map};
ghost use Rattle.jolie_ast.specs.declared.service.Port.{Port};
ghost use Rattle.check_base.specs.Files.{input_port_in, output_port_in, port_in, services_of};
ghost use Rattle.check_base.specs.Least.{joined};
ghost use Rattle.check_ports.specs.PortRules.{input_locations, operations_repeated, port_name, port_refused, ports_refused, sided_refused, unknown_interface, unmet, wrong_local_protocol, wrong_location, wrong_protocol, wrong_socket_protocol};

use crate::brought::{input_ports_refused, operations_repeated};
use check_base::{
    CONSOLE, CheckName, Interfaces, Least, Mention, Names, input_port_in, output_port_in, port_in,
    repeated_refused, service_in,
};
use jolie_ast::{Clause, Definition, Name, Port, Service};
use program_locations::{begins_local, is_local, is_socket};
use std::alloc::{AllocError, Global};

/// What is refused of the ports of a service.
#[tactic(auto, using(check_base::proofs::Joined::joined_append))]
pub fn ports_refused<'a>(
    alloc: Global,
    interfaces: &Interfaces<'a>,
    locations: &Names,
    service: &'a Service,
    least: &mut Least,
) -> Result<(), AllocError>
    ensures { OnOk result (least.new ≡ joined least.old (ports_refused interfaces.now locations.now service.now)) }
{
    let clauses = service.clauses.as_slice();
    let names = port_names(alloc, clauses)?;
    repeated_refused(alloc, names.as_slice(), least)?;
    each_port_refused(interfaces, clauses, least);
    input_ports_refused(alloc, interfaces, clauses, least)?;
    output_ports_refused(alloc, interfaces, clauses, least)?;
    all_unmet(locations, clauses, least);
    Ok(())
}

/// The names of the ports.
fn port_names(alloc: Global, clauses: &[Clause]) -> Result<Vec<Mention<'_>>, AllocError>
    ensures { IfOk result (λ names. names.items ≡ map port_name (filter_map port_in clauses.now)) }
{
    let mut names = Vec::new(alloc);
    for clause in clauses {
        if let Some(port) = port_in(clause) {
            names.push(Mention::name(&port.name))?;
        }
    }
    Ok(names)
}

/// What is refused of each port by itself.
fn each_port_refused(interfaces: &Interfaces, clauses: &[Clause], least: &mut Least)
    ensures { least.new ≡ joined least.old
        (flat_map (sided_refused interfaces.now) (filter_map port_in clauses.now)) }
{
    for clause in clauses {
        if let Some(port) = port_in(clause) {
            port_refused(interfaces, port, least);
        }
    }
}

/// What is refused of the operations of each output port.
fn output_ports_refused(
    alloc: Global,
    interfaces: &Interfaces,
    clauses: &[Clause],
    least: &mut Least,
) -> Result<(), AllocError>
    ensures { OnOk result (least.new ≡ joined least.old
        (flat_map (operations_repeated interfaces.now) (filter_map output_port_in clauses.now))) }
{
    for clause in clauses {
        if let Some(port) = output_port_in(clause) {
            operations_repeated(alloc, interfaces, port, least)?;
        }
    }
    Ok(())
}

/// Output ports at local locations that no input port has.
fn all_unmet(locations: &Names, clauses: &[Clause], least: &mut Least)
    ensures { least.new ≡ joined least.old (flat_map (unmet locations.now) (filter_map output_port_in clauses.now)) }
{
    for clause in clauses {
        if let Some(port) = output_port_in(clause) {
            unmet(locations, port, least);
        }
    }
}

/// What is refused of a port by itself.
#[tactic(auto, using(check_base::proofs::Joined::joined_append))]
fn port_refused(interfaces: &Interfaces, port: &Port, least: &mut Least)
    ensures { least.new ≡ joined least.old (port_refused interfaces.now port.now) }
{
    let is_console = port.name.text.as_str() == CONSOLE;
    least.offer_if(is_console, CheckName::WrongKind, port.name.at);
    wrong_location(port, least);
    wrong_protocol(port, least);
    unknown_interfaces(interfaces, port.interfaces.as_slice(), least);
}

/// A location that is none.
fn wrong_location(port: &Port, least: &mut Least)
    ensures { least.new ≡ joined least.old (wrong_location port.now) }
{
    let location = port.location.text.as_str();
    let is_wrong = !(is_local(location) || is_socket(location));
    least.offer_if(is_wrong, CheckName::WrongKind, port.location.at);
}

/// A socket has the protocol jsonrpc, a local location none.
fn wrong_protocol(port: &Port, least: &mut Least)
    ensures { least.new ≡ joined least.old (wrong_protocol port.now) }
{
    let location = port.location.text.as_str();
    if is_local(location) {
        wrong_local_protocol(&port.protocol, least);
    } else if !begins_local(location) {
        wrong_socket_protocol(port.location.at, &port.protocol, least);
    }
}

fn wrong_local_protocol(protocol: &Option<Name>, least: &mut Least)
    ensures { least.new ≡ joined least.old (wrong_local_protocol protocol.now) }
{
    if let Some(protocol) = protocol {
        least.offer(CheckName::WrongKind, protocol.at);
    }
}

fn wrong_socket_protocol(at: u32, protocol: &Option<Name>, least: &mut Least)
    ensures { least.new ≡ joined least.old (wrong_socket_protocol at protocol.now) }
{
    match protocol {
        Some(protocol) => {
            let is_jsonrpc = protocol.text.as_str() == "jsonrpc";
            least.offer_if(!is_jsonrpc, CheckName::WrongKind, protocol.at);
        }
        None => least.offer(CheckName::WrongKind, at),
    }
}

fn unknown_interfaces(interfaces: &Interfaces, names: &[Name], least: &mut Least)
    ensures { least.new ≡ joined least.old (flat_map (unknown_interface interfaces.now) names.now) }
{
    for name in names {
        unknown_interface(interfaces, name, least);
    }
}

/// An interface that is not there.
fn unknown_interface(interfaces: &Interfaces, name: &Name, least: &mut Least)
    ensures { least.new ≡ joined least.old (unknown_interface interfaces.now name.now) }
{
    let is_unknown = !interfaces.has(name.text.as_str());
    least.offer_if(is_unknown, CheckName::UnknownType, name.at);
}

/// An output port at a local location that no input port has.
fn unmet(locations: &Names, port: &Port, least: &mut Least)
    ensures { least.new ≡ joined least.old (unmet locations.now port.now) }
{
    let location = port.location.text.as_str();
    let is_unmet = is_local(location) && !locations.has(location);
    least.offer_if(is_unmet, CheckName::UnknownPort, port.location.at);
}

/// The locations of the input ports of a file.
pub fn input_locations(alloc: Global, file: &[Definition]) -> Result<Names<'_>, AllocError>
    ensures { IfOk result (λ locations. locations ≡ input_locations (services_of file.now)) }
{
    let mut locations = Names::new(alloc);
    for definition in file {
        if let Some(service) = service_in(definition) {
            add_locations(service.clauses.as_slice(), &mut locations)?;
        }
    }
    Ok(locations)
}

/// Adds the locations of the input ports of a service.
fn add_locations<'a>(clauses: &'a [Clause], locations: &mut Names<'a>) -> Result<(), AllocError>
    ensures { OnOk result (locations.new ≡ locations.old
        ++ map (λ (p : Port). p.location.text) (filter_map input_port_in clauses.now)) }
{
    for clause in clauses {
        if let Some(port) = input_port_in(clause) {
            locations.add(port.location.text.as_str())?;
        }
    }
    Ok(())
}
