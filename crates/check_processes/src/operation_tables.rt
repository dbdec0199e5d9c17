ghost use Rattle.std.specs.Prelude.{◌≡◌, [], ◌∷◌, IfOk, flat_map, map};
ghost use Rattle.check_base.specs.Files.{answering, group_operations, input_operations, operations_among, operations_named, port_operations, silent};
ghost use Rattle.check_processes.specs.OperationTables.{answers_named, does_answer, operations_of_input, with_new};

use check_base::{Interfaces, Names, input_port_in};
use jolie_ast::{Clause, Name, OneWay, OperationGroup, Port, RequestResponse, Service, TypeName};
use std::alloc::{AllocError, Global};
use std::marker::Model;

/// How an interface declares an operation.
#[derive(Clone, Copy)]
enum Declaration<'a> {
    Answering(&'a RequestResponse),
    Silent(&'a OneWay),
}

/// An operation of an interface.
#[derive(Drop)]
pub struct Declared<'a> {
    declaration: Declaration<'a>,
}

impl<'a> Model for Declared<'a> {
    ghost use Rattle.std.specs.Coded.{codes};
    ghost use Rattle.jolie_ast.specs.contracts.interface.Fault as fault;
    ghost use Rattle.jolie_ast.specs.contracts.interface.TypeName as type_name;
    ghost use Rattle.jolie_ast.specs.contracts.name.Name as name;
    ghost use Rattle.check_base.specs.Files.{Operation};

    ghost Value = { Operation };

    ghost coded = { Prim.hlevel (codes, fault.the_row.coded, type_name.the_row.coded, name.the_row.coded) };

    ghost use Rattle.check_processes.specs.OperationTables.{operation_of};

    ghost view = { λ d. operation_of d.declaration };
}

impl<'a> Declared<'a> {
    fn answering(operation: &'a RequestResponse) -> Declared<'a>
        ensures { result ≡ answering operation.now }
    {
        Declared {
            declaration: Declaration::Answering(operation),
        }
    }

    fn silent(operation: &'a OneWay) -> Declared<'a>
        ensures { result ≡ silent operation.now }
    {
        Declared {
            declaration: Declaration::Silent(operation),
        }
    }

    pub fn name(&self) -> &'a str
        ensures { result.now ≡ self.now.name.text }
    {
        match self.declaration {
            Declaration::Answering(operation) => operation.name.text.as_str(),
            Declaration::Silent(operation) => operation.name.text.as_str(),
        }
    }

    pub fn request(&self) -> &'a TypeName
        ensures { result.now ≡ self.now.request }
    {
        match self.declaration {
            Declaration::Answering(operation) => &operation.request,
            Declaration::Silent(operation) => &operation.request,
        }
    }

    fn answers(&self) -> bool
        ensures { result ≡ does_answer self.now }
    {
        match self.declaration {
            Declaration::Answering(_) => true,
            Declaration::Silent(_) => false,
        }
    }
}

/// Operations, each once, in the order in which they first stand, and each found by its name.
#[derive(Drop)]
pub struct Operations<'a> {
    declared: Vec<Declared<'a>>,
    names: Names<'a>,
}

impl<'a> Model for Operations<'a> {
    ghost use Rattle.std.specs.Prelude.{◌≡◌, List};
    ghost use Rattle.std.specs.Coded.{codes};
    ghost use Rattle.jolie_ast.specs.contracts.interface.Fault as fault;
    ghost use Rattle.jolie_ast.specs.contracts.interface.TypeName as type_name;
    ghost use Rattle.jolie_ast.specs.contracts.name.Name as name;
    ghost use Rattle.check_base.specs.Files.{Operation, texts_of};

    ghost Value = { List Operation };

    ghost coded = { Prim.hlevel (codes, fault.the_row.coded, type_name.the_row.coded, name.the_row.coded) };

    ghost view = { λ o. o.declared.items };

    ghost invariant = { λ o. o.names ≡ texts_of o.declared.items };
}

impl<'a> Operations<'a> {
    fn new(alloc: Global) -> Operations<'a>
        ensures { result ≡ [] }
    {
        Operations {
            declared: Vec::new(alloc),
            names: Names::new(alloc),
        }
    }

    pub fn as_slice(&self) -> &[Declared<'a>]
        ensures { result.now ≡ self.now }
    {
        self.declared.as_slice()
    }

    /// Whether the operation of a name answers, if it is there.
    #[tactic(auto, using(crate::proofs::OperationTables::operation_found, crate::proofs::OperationTables::operation_missing))]
    pub fn answers(&self, name: &str) -> Option<bool>
        ensures { result ≡ answers_named self.now name.now }
    {
        match self.names.place(name) {
            Some(place) => Some(self.declared[place].answers()),
            None => None,
        }
    }

    /// The operations with one more after them, if its name is new.
    #[tactic(auto, using(crate::proofs::OperationTables::known_name, crate::proofs::OperationTables::new_name, crate::proofs::OperationTables::names_more))]
    fn with(self, operation: Declared<'a>) -> Result<Operations<'a>, AllocError>
        ensures { IfOk result (λ more. more ≡ with_new self.entry (operation.entry ∷ [])) }
    {
        if self.names.has(operation.name()) {
            return Ok(self);
        }
        let Operations {
            mut declared,
            mut names,
        } = self;
        names.add(operation.name())?;
        declared.push(operation)?;
        Ok(Operations { declared, names })
    }
}

/// The operations of a port, in the order of its interfaces.
pub fn port_operations<'a>(
    alloc: Global,
    interfaces: &Interfaces<'a>,
    port: &Port,
) -> Result<Operations<'a>, AllocError>
    ensures { IfOk result (λ operations. operations ≡ port_operations interfaces.now port.now) }
{
    with_interfaces(
        Operations::new(alloc),
        interfaces,
        port.interfaces.as_slice(),
    )
}

/// The operations of the input ports of a service, in the order of its ports and their interfaces.
pub fn input_operations<'a>(
    alloc: Global,
    interfaces: &Interfaces<'a>,
    service: &Service,
) -> Result<Operations<'a>, AllocError>
    ensures { IfOk result (λ operations. operations ≡ input_operations interfaces.now service.now) }
{
    let mut operations = Operations::new(alloc);
    for clause in service.clauses.as_slice() {
        operations = with_input(operations, interfaces, clause)?;
    }
    Ok(operations)
}

/// Operations and those of a clause, if it is an input port.
#[tactic(auto, using(crate::proofs::OperationTables::with_new_none))]
fn with_input<'a>(
    operations: Operations<'a>,
    interfaces: &Interfaces<'a>,
    clause: &Clause,
) -> Result<Operations<'a>, AllocError>
    ensures { IfOk result (λ more. more ≡ with_new operations.entry (operations_of_input interfaces.now clause.now)) }
{
    match input_port_in(clause) {
        Some(port) => with_interfaces(operations, interfaces, port.interfaces.as_slice()),
        None => Ok(operations),
    }
}

/// Operations and those of interfaces.
#[tactic(auto, using(crate::proofs::OperationTables::with_new_none))]
fn with_interfaces<'a>(
    mut operations: Operations<'a>,
    interfaces: &Interfaces<'a>,
    names: &[Name],
) -> Result<Operations<'a>, AllocError>
    ensures { IfOk result (λ more. more ≡ with_new operations.entry (operations_among interfaces.now names.now)) }
{
    for name in names {
        operations = with_interface(operations, interfaces, name.text.as_str())?;
    }
    Ok(operations)
}

/// Operations and those of the interface of a name, if it is there.
#[tactic(auto, using(crate::proofs::OperationTables::with_new_none))]
fn with_interface<'a>(
    operations: Operations<'a>,
    interfaces: &Interfaces<'a>,
    name: &str,
) -> Result<Operations<'a>, AllocError>
    ensures { IfOk result (λ more. more ≡ with_new operations.entry (operations_named interfaces.now name.now)) }
{
    match interfaces.get(name) {
        Some(interface) => with_groups(operations, interface.groups.as_slice()),
        None => Ok(operations),
    }
}

/// Operations and those of groups.
#[tactic(auto, using(crate::proofs::OperationTables::with_new_none))]
fn with_groups<'a>(
    mut operations: Operations<'a>,
    groups: &'a [OperationGroup],
) -> Result<Operations<'a>, AllocError>
    ensures { IfOk result (λ more. more ≡ with_new operations.entry (flat_map group_operations groups.now)) }
{
    for group in groups {
        operations = with_group(operations, group)?;
    }
    Ok(operations)
}

/// Operations and those after one word.
fn with_group<'a>(
    operations: Operations<'a>,
    group: &'a OperationGroup,
) -> Result<Operations<'a>, AllocError>
    ensures { IfOk result (λ more. more ≡ with_new operations.entry (group_operations group.now)) }
{
    match group {
        OperationGroup::RequestResponse {
            operations: declared,
            ..
        } => with_answering(operations, declared.as_slice()),
        OperationGroup::OneWay {
            operations: declared,
            ..
        } => with_silent(operations, declared.as_slice()),
    }
}

/// Operations and others that answer.
#[tactic(auto, using(crate::proofs::OperationTables::with_new_none))]
fn with_answering<'a>(
    mut operations: Operations<'a>,
    declared: &'a [RequestResponse],
) -> Result<Operations<'a>, AllocError>
    ensures { IfOk result (λ more. more ≡ with_new operations.entry (map answering declared.now)) }
{
    for operation in declared {
        operations = operations.with(Declared::answering(operation))?;
    }
    Ok(operations)
}

/// Operations and others that do not answer.
#[tactic(auto, using(crate::proofs::OperationTables::with_new_none))]
fn with_silent<'a>(
    mut operations: Operations<'a>,
    declared: &'a [OneWay],
) -> Result<Operations<'a>, AllocError>
    ensures { IfOk result (λ more. more ≡ with_new operations.entry (map silent declared.now)) }
{
    for operation in declared {
        operations = operations.with(Declared::silent(operation))?;
    }
    Ok(operations)
}
