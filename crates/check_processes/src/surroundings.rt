ghost use Rattle.std.specs.Prelude.{◌≡◌, [], ◌∷◌, ◌++◌, IfOk, map};
ghost use Rattle.std.specs.Option.{option_copied, option_to_list};
ghost use Rattle.behaviour_tree.specs.Distinct.{is_in};
ghost use Rattle.check_base.specs.Files.{output_port_in, output_ports};
ghost use Rattle.check_processes.specs.ProcessRules.{outlet_named};
ghost use Rattle.check_processes.specs.Surroundings.{outlet, surroundings};

use crate::operation_tables::{Operations, input_operations, port_operations};
use check_base::{Interfaces, Names, output_port_in, variables_of};
use jolie_ast::{Clause, Port, Service};
use std::alloc::{AllocError, Global};
use std::marker::Model;

/// An output port: its name, and its operations.
#[derive(Drop)]
pub struct Outlet<'a> {
    name: &'a str,
    operations: Operations<'a>,
}

impl<'a> Model for Outlet<'a> {
    ghost use Rattle.std.specs.Coded.{codes};
    ghost use Rattle.jolie_ast.specs.contracts.interface.Fault as fault;
    ghost use Rattle.jolie_ast.specs.contracts.interface.TypeName as type_name;
    ghost use Rattle.jolie_ast.specs.contracts.name.Name as word;
    ghost use Rattle.check_processes.specs.Surroundings.{Outlet};

    ghost Value = { Outlet };

    ghost coded = { Prim.hlevel (codes, fault.the_row.coded, type_name.the_row.coded, word.the_row.coded) };

    ghost view = { λ o. record { name = o.name.now; operations = o.operations } };
}

impl<'a> Outlet<'a> {
    fn of_port(
        alloc: Global,
        interfaces: &Interfaces<'a>,
        port: &'a Port,
    ) -> Result<Outlet<'a>, AllocError>
        ensures { IfOk result (λ o. o ≡ outlet interfaces.now port.now) }
    {
        let operations = port_operations(alloc, interfaces, port)?;
        Ok(Outlet {
            name: port.name.text.as_str(),
            operations,
        })
    }

    fn name(&self) -> &'a str
        ensures { result.now ≡ self.now.name }
    {
        self.name
    }

    fn operations(&self) -> &Operations<'a>
        ensures { result.now ≡ self.now.operations }
    {
        &self.operations
    }
}

/// Output ports in their order, each found by its name.
#[derive(Drop)]
pub struct Outlets<'a> {
    outlets: Vec<Outlet<'a>>,
    names: Names<'a>,
}

impl<'a> Model for Outlets<'a> {
    ghost use Rattle.std.specs.Prelude.{◌≡◌, List, map};
    ghost use Rattle.std.specs.Coded.{codes};
    ghost use Rattle.jolie_ast.specs.contracts.interface.Fault as fault;
    ghost use Rattle.jolie_ast.specs.contracts.interface.TypeName as type_name;
    ghost use Rattle.jolie_ast.specs.contracts.name.Name as word;
    ghost use Rattle.check_processes.specs.Surroundings.{Outlet};

    ghost Value = { List Outlet };

    ghost coded = { Prim.hlevel (codes, fault.the_row.coded, type_name.the_row.coded, word.the_row.coded) };

    ghost view = { λ o. o.outlets.items };

    ghost invariant = { λ o. o.names ≡ map (λ (x : Outlet). x.name) o.outlets.items };
}

impl<'a> Outlets<'a> {
    fn new(alloc: Global) -> Outlets<'a>
        ensures { result ≡ [] }
    {
        Outlets {
            outlets: Vec::new(alloc),
            names: Names::new(alloc),
        }
    }

    /// The operations of the first output port of a name.
    #[tactic(auto, using(crate::proofs::OperationTables::outlet_found, crate::proofs::OperationTables::outlet_missing))]
    fn get(&self, name: &str) -> Option<&Operations<'a>>
        ensures { option_copied result ≡ outlet_named self.now name.now }
    {
        match self.names.place(name) {
            Some(place) => Some(self.outlets[place].operations()),
            None => None,
        }
    }

    /// The output ports with one more after them.
    #[tactic(auto, using(crate::proofs::OperationTables::outlet_names_more))]
    fn with(self, outlet: Outlet<'a>) -> Result<Outlets<'a>, AllocError>
        ensures { IfOk result (λ more. more ≡ self.entry ++ outlet.entry ∷ []) }
    {
        let Outlets {
            mut outlets,
            mut names,
        } = self;
        names.add(outlet.name())?;
        outlets.push(outlet)?;
        Ok(Outlets { outlets, names })
    }
}

/// The output ports of a service.
fn outlets_of<'a>(
    alloc: Global,
    interfaces: &Interfaces<'a>,
    service: &'a Service,
) -> Result<Outlets<'a>, AllocError>
    ensures { IfOk result (λ outlets. outlets ≡ map (outlet interfaces.now) (output_ports service.now)) }
{
    let mut outlets = Outlets::new(alloc);
    for clause in service.clauses.as_slice() {
        outlets = with_outlet(alloc, outlets, interfaces, clause)?;
    }
    Ok(outlets)
}

/// Output ports and that which a clause is, if it is one.
#[tactic(auto, using(crate::proofs::OperationTables::outlets_stay))]
fn with_outlet<'a>(
    alloc: Global,
    outlets: Outlets<'a>,
    interfaces: &Interfaces<'a>,
    clause: &'a Clause,
) -> Result<Outlets<'a>, AllocError>
    ensures { IfOk result
        (λ more. more ≡ outlets.entry ++ map (outlet interfaces.now) (option_to_list (output_port_in clause.now))) }
{
    match output_port_in(clause) {
        Some(port) => {
            let outlet = Outlet::of_port(alloc, interfaces, port)?;
            outlets.with(outlet)
        }
        None => Ok(outlets),
    }
}

/// What the processes of a service may name: the operations of its input ports, its output ports, and its variables.
#[derive(Drop)]
pub struct Surroundings<'a> {
    inputs: Operations<'a>,
    outlets: Outlets<'a>,
    variables: Names<'a>,
}

impl<'a> Model for Surroundings<'a> {
    ghost use Rattle.std.specs.Coded.{codes};
    ghost use Rattle.jolie_ast.specs.contracts.interface.Fault as fault;
    ghost use Rattle.jolie_ast.specs.contracts.interface.TypeName as type_name;
    ghost use Rattle.jolie_ast.specs.contracts.name.Name as word;
    ghost use Rattle.check_processes.specs.Surroundings.{Surroundings};

    ghost Value = { Surroundings };

    ghost coded = { Prim.hlevel (codes, fault.the_row.coded, type_name.the_row.coded, word.the_row.coded) };

    ghost view = { λ s. record { inputs = s.inputs; outlets = s.outlets; variables = s.variables } };
}

impl<'a> Surroundings<'a> {
    pub fn of_service(
        alloc: Global,
        interfaces: &Interfaces<'a>,
        service: &'a Service,
    ) -> Result<Surroundings<'a>, AllocError>
        ensures { IfOk result (λ s. s ≡ surroundings interfaces.now service.now) }
    {
        let inputs = input_operations(alloc, interfaces, service)?;
        let outlets = outlets_of(alloc, interfaces, service)?;
        let variables = variables_of(alloc, service)?;
        Ok(Surroundings {
            inputs,
            outlets,
            variables,
        })
    }

    pub fn inputs(&self) -> &Operations<'a>
        ensures { result.now ≡ self.now.inputs }
    {
        &self.inputs
    }

    /// The operations of the output port of a name.
    pub fn outlet(&self, name: &str) -> Option<&Operations<'a>>
        ensures { option_copied result ≡ outlet_named self.now.outlets name.now }
    {
        self.outlets.get(name)
    }

    pub fn has_variable(&self, name: &str) -> bool
        ensures { result ≡ is_in name.now self.now.variables }
    {
        self.variables.has(name)
    }
}
