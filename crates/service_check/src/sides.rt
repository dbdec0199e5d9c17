ghost use Rattle.std.specs.Prelude.{◌≡◌, ◌++◌, map, IfOk, OnOk};
ghost use Rattle.std.specs.List.{filter_map};
ghost use Rattle.std.specs.Option.{option_to_list};
ghost use Rattle.check_base.specs.Files.{port_in};
ghost use Rattle.service_check.specs.KeptPorts.{sided};

use jolie_ast::{Clause, Port};
use std::alloc::{AllocError, Global};

/// A port of a service with its direction.
#[derive(Clone, Copy)]
pub struct SidedPort<'a> {
    pub input: bool,
    pub port: &'a Port,
}

/// The ports of a service, in order.
#[tactic(auto, using(check_base::proofs::Loops::all_found))]
pub fn ports_of(alloc: Global, clauses: &[Clause]) -> Result<Vec<SidedPort<'_>>, AllocError>
    ensures { IfOk result (λ ports. map sided ports.items ≡ filter_map port_in clauses.now) }
{
    let mut ports = Vec::new(alloc);
    for clause in clauses {
        add_port(clause, &mut ports)?;
    }
    Ok(ports)
}

/// Adds the port that a clause is, if it is one.
fn add_port<'a>(clause: &'a Clause, ports: &mut Vec<SidedPort<'a>>) -> Result<(), AllocError>
    ensures { OnOk result (map sided ports.new.items ≡ map sided ports.old.items
        ++ option_to_list (port_in clause.now)) }
{
    match clause {
        Clause::InputPort(port) => {
            ports.push(SidedPort { input: true, port })?;
            Ok(())
        }
        Clause::OutputPort(port) => {
            ports.push(SidedPort { input: false, port })?;
            Ok(())
        }
        _ => Ok(()),
    }
}
