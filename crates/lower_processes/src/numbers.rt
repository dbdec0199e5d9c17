ghost use Rattle.std.specs.Prelude.{◌≡◌, ◌++◌, [], ◌∷◌, IfOk, OnOk};
ghost use Rattle.std.specs.Option.{option_copied};
ghost use Rattle.lower_processes.specs.Behaviours.{console_port, lowered_port};
ghost use Rattle.lower_processes.specs.Numbers.{IsNumberedOperation, numbering_of, port_named};

use check_base::{CONSOLE, Names, number};
use std::alloc::{AllocError, Global};
use std::marker::Model;

/// An output port: its name, its number and its operations.
#[derive(Drop)]
pub struct NumberedPort<'a> {
    name: &'a str,
    number: u32,
    operations: Names<'a>,
}

impl<'a> Model for NumberedPort<'a> {
    ghost use Rattle.lower_processes.specs.Behaviours.{NumberedPort};

    ghost Value = { NumberedPort };

    ghost view = { λ p. record { name = p.name.now; number = p.number; operations = p.operations } };
}

impl<'a> NumberedPort<'a> {
    /// An operation of the port, by the numbers of both.
    fn operation(&self, operation: &str) -> Result<NumberedOperation, AllocError>
        ensures { IfOk result (λ o. IsNumberedOperation o self.now operation.now) }
    {
        Ok(NumberedOperation {
            port: self.number,
            op: number(&self.operations, operation)?,
        })
    }
}

/// The output ports of a service in their order, each found by its name.
#[derive(Drop)]
pub struct Ports<'a> {
    ports: Vec<NumberedPort<'a>>,
    names: Names<'a>,
}

impl<'a> Model for Ports<'a> {
    ghost use Rattle.std.specs.Prelude.{◌≡◌, List, map};
    ghost use Rattle.lower_processes.specs.Behaviours.{NumberedPort};

    ghost Value = { List NumberedPort };

    ghost view = { λ p. p.ports.items };

    ghost invariant = { λ p. p.names ≡ map (λ (q : NumberedPort). q.name) p.ports.items };
}

impl<'a> Ports<'a> {
    /// No ports.
    pub fn new(alloc: Global) -> Ports<'a>
        ensures { result ≡ [] }
    {
        Ports {
            ports: Vec::new(alloc),
            names: Names::new(alloc),
        }
    }

    /// The first port of a name.
    fn get(&self, name: &str) -> Option<&NumberedPort<'a>>
        ensures { option_copied result ≡ port_named self.now name.now }
    {
        match self.names.place(name) {
            Some(place) => self.ports.get(place),
            None => None,
        }
    }

    /// Adds a port after the others, with its name, its number and its operations.
    #[tactic(auto, using(crate::proofs::NumberedPorts::names_more))]
    pub fn add(
        &mut self,
        name: &'a str,
        number: u32,
        operations: Names<'a>,
    ) -> Result<(), AllocError>
        ensures { OnOk result (self.new ≡ self.old
            ++ record { name = name.now; number = number; operations = operations.entry } ∷ []) }
    {
        self.ports.push(NumberedPort {
            name,
            number,
            operations,
        })?;
        if let Err(failed) = self.names.add(name) {
            self.ports.pop();
            return Err(failed);
        }
        Ok(())
    }
}

/// What the processes of a service name by numbers, beside the names of the file.
#[derive(Drop)]
pub struct Numbers<'a> {
    pub inputs: Names<'a>,
    pub ports: Ports<'a>,
    /// The number of the port that every service has.
    pub console: u32,
    pub variables: Names<'a>,
}

/// An operation of an output port, by the numbers of both.
#[derive(Clone, Copy)]
pub struct NumberedOperation {
    pub port: u32,
    pub op: u32,
}

impl<'a> Numbers<'a> {
    /// The operation of an output port, where a service has no other of that name its console.
    #[tactic(auto, using(crate::proofs::NumberedPorts::port_found))]
    pub fn numbered_operation(
        &self,
        port: &str,
        operation: &str,
    ) -> Result<NumberedOperation, AllocError>
        ensures { IfOk result
            (λ o. IsNumberedOperation o (lowered_port (numbering_of self.now []) port.now) operation.now) }
    {
        if port == CONSOLE {
            return Ok(self.console_operation(operation));
        }
        match self.ports.get(port) {
            Some(port) => port.operation(operation),
            None => Ok(self.console_operation(operation)),
        }
    }

    /// An operation of the port that every service has.
    fn console_operation(&self, operation: &str) -> NumberedOperation
        ensures { IsNumberedOperation result (console_port (numbering_of self.now [])) operation.now }
    {
        let op = if operation == "println" { 0 } else { 1 };
        NumberedOperation {
            port: self.console,
            op,
        }
    }
}
