ghost use Rattle.std.specs.Prelude.{◌≡◌, ◌++◌, IfOk, OnOk, flat_map, is_some, map};
ghost use Rattle.std.specs.List.{list_any};
ghost use Rattle.jolie_ast.specs.declared.interface.Interface.{Interface};
ghost use Rattle.jolie_ast.specs.declared.service.Service.{Service};
ghost use Rattle.jolie_ast.specs.declared.types.TypeDefinition.{TypeDefinition};
ghost use Rattle.check_base.specs.Files.{interfaces_of, service_in, services_of, types_of};
ghost use Rattle.check_base.specs.declared.refusal.CheckName.TheVariants.{DuplicateName};
ghost use Rattle.check_base.specs.Least.{joined, refused};
ghost use Rattle.check_base.specs.Repeated.{repeated};
ghost use Rattle.service_check.specs.Refusals.{locations_in, names_refused, no_service};

use check_base::{
    CheckName, Least, Mention, input_port_in, interface_in, repeated_refused, service_in, type_in,
};
use jolie_ast::{Definition, Service};
use std::alloc::{AllocError, Global};

/// A file without a service, at its beginning.
#[tactic(auto, using(crate::proofs::FileNames::without_service))]
pub fn no_service(file: &[Definition], least: &mut Least)
    ensures { least.new ≡ joined least.old (no_service (services_of file.now)) }
{
    let is_without = !has_service(file);
    least.offer_if(is_without, CheckName::NoStart, 0);
}

fn has_service(file: &[Definition]) -> bool
    ensures { result ≡ list_any (λ d. is_some (service_in d)) file.now }
{
    file.iter().any(|definition| is_service(definition))
}

fn is_service(definition: &Definition) -> bool
    ensures { result ≡ is_some (service_in definition.now) }
{
    service_in(definition).is_some()
}

/// Names of types, interfaces and services that stand a second time, and locations of input ports that do.
#[tactic(auto, using(check_base::proofs::Joined::joined_append))]
pub fn names_refused(
    alloc: Global,
    file: &[Definition],
    least: &mut Least,
) -> Result<(), AllocError>
    ensures { OnOk result (least.new ≡ joined least.old (names_refused file.now)) }
{
    types_repeated(alloc, file, least)?;
    interfaces_repeated(alloc, file, least)?;
    services_repeated(alloc, file, least)?;
    locations_repeated(alloc, file, least)
}

fn types_repeated(alloc: Global, file: &[Definition], least: &mut Least) -> Result<(), AllocError>
    ensures { OnOk result (least.new ≡ joined least.old
        (refused DuplicateName (repeated (map (λ (t : TypeDefinition). t.name) (types_of file.now))))) }
{
    let names = type_names(alloc, file)?;
    repeated_refused(alloc, names.as_slice(), least)
}

fn interfaces_repeated(
    alloc: Global,
    file: &[Definition],
    least: &mut Least,
) -> Result<(), AllocError>
    ensures { OnOk result (least.new ≡ joined least.old
        (refused DuplicateName (repeated (map (λ (i : Interface). i.name) (interfaces_of file.now))))) }
{
    let names = interface_names(alloc, file)?;
    repeated_refused(alloc, names.as_slice(), least)
}

fn services_repeated(
    alloc: Global,
    file: &[Definition],
    least: &mut Least,
) -> Result<(), AllocError>
    ensures { OnOk result (least.new ≡ joined least.old
        (refused DuplicateName (repeated (map (λ (s : Service). s.name) (services_of file.now))))) }
{
    let names = service_names(alloc, file)?;
    repeated_refused(alloc, names.as_slice(), least)
}

fn locations_repeated(
    alloc: Global,
    file: &[Definition],
    least: &mut Least,
) -> Result<(), AllocError>
    ensures { OnOk result (least.new ≡ joined least.old
        (refused DuplicateName (repeated (flat_map locations_in (services_of file.now))))) }
{
    let locations = locations(alloc, file)?;
    repeated_refused(alloc, locations.as_slice(), least)
}

fn type_names(alloc: Global, file: &[Definition]) -> Result<Vec<Mention<'_>>, AllocError>
    ensures { IfOk result (λ names. names.items ≡ map (λ (t : TypeDefinition). t.name) (types_of file.now)) }
{
    let mut names = Vec::new(alloc);
    for definition in file {
        if let Some(ty) = type_in(definition) {
            names.push(Mention::name(&ty.name))?;
        }
    }
    Ok(names)
}

fn interface_names(alloc: Global, file: &[Definition]) -> Result<Vec<Mention<'_>>, AllocError>
    ensures { IfOk result (λ names. names.items ≡ map (λ (i : Interface). i.name) (interfaces_of file.now)) }
{
    let mut names = Vec::new(alloc);
    for definition in file {
        if let Some(interface) = interface_in(definition) {
            names.push(Mention::name(&interface.name))?;
        }
    }
    Ok(names)
}

fn service_names(alloc: Global, file: &[Definition]) -> Result<Vec<Mention<'_>>, AllocError>
    ensures { IfOk result (λ names. names.items ≡ map (λ (s : Service). s.name) (services_of file.now)) }
{
    let mut names = Vec::new(alloc);
    for definition in file {
        if let Some(service) = service_in(definition) {
            names.push(Mention::name(&service.name))?;
        }
    }
    Ok(names)
}

/// The locations of the input ports of a file.
fn locations(alloc: Global, file: &[Definition]) -> Result<Vec<Mention<'_>>, AllocError>
    ensures { IfOk result (λ locations. locations.items ≡ flat_map locations_in (services_of file.now)) }
{
    let mut locations = Vec::new(alloc);
    for definition in file {
        if let Some(service) = service_in(definition) {
            add_locations(service, &mut locations)?;
        }
    }
    Ok(locations)
}

fn add_locations<'a>(
    service: &'a Service,
    locations: &mut Vec<Mention<'a>>,
) -> Result<(), AllocError>
    ensures { OnOk result (locations.new.items ≡ locations.old.items ++ locations_in service.now) }
{
    for clause in service.clauses.as_slice() {
        if let Some(port) = input_port_in(clause) {
            locations.push(Mention::quoted(&port.location))?;
        }
    }
    Ok(())
}
