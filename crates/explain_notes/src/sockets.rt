//! The sockets at which the services of a file are called.

ghost use Rattle.std.specs.Prelude.{◌≡◌, ◌++◌, IfOk, OnOk};
ghost use Rattle.explain_notes.specs.Services as spec;

use check_base::{Names, service_in};
use jolie_ast::{Clause, Definition, Port, Service};
use std::alloc::{AllocError, Global};

/// The locations of the input ports of a file that are sockets.
pub fn own_sockets(alloc: Global, file: &[Definition]) -> Result<Names<'_>, AllocError>
    ensures { IfOk result (λ names. names ≡ spec.own_sockets file.now) }
{
    let mut names = Names::new(alloc);
    for definition in file {
        if let Some(service) = service_in(definition) {
            add_service(service, &mut names)?;
        }
    }
    Ok(names)
}

fn add_service<'a>(service: &'a Service, names: &mut Names<'a>) -> Result<(), AllocError>
    ensures { OnOk result (names.new ≡ names.old ++ spec.sockets_of service.now) }
{
    for clause in service.clauses.as_slice() {
        add_clause(clause, names)?;
    }
    Ok(())
}

fn add_clause<'a>(clause: &'a Clause, names: &mut Names<'a>) -> Result<(), AllocError>
    ensures { OnOk result (names.new ≡ names.old ++ spec.socket_in clause.now) }
{
    match clause {
        Clause::Execution { .. } => Ok(()),
        Clause::InputPort(port) => add_port(port, names),
        Clause::OutputPort(_) => Ok(()),
        Clause::CorrelationSet { .. } => Ok(()),
        Clause::Init { .. } => Ok(()),
        Clause::Main { .. } => Ok(()),
    }
}

fn add_port<'a>(port: &'a Port, names: &mut Names<'a>) -> Result<(), AllocError>
    ensures { OnOk result (names.new ≡ names.old ++ spec.socket_of port.now) }
{
    if !is_socket(port.location.text.as_str()) {
        return Ok(());
    }
    names.add(port.location.text.as_str())?;
    Ok(())
}

/// Whether a location is one of a socket.
pub(crate) fn is_socket(location: &str) -> bool
    ensures { result ≡ spec.is_socket location.now }
{
    location.as_bytes().starts_with("socket://".as_bytes())
}
