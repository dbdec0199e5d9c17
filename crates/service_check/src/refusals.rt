ghost use Rattle.std.specs.Prelude.{◌≡◌, IfOk, OnOk, flat_map};
ghost use Rattle.service_check.specs.Clauses.{definition_refused};
ghost use Rattle.check_base.specs.Files.{interfaces_of, services_of};
ghost use Rattle.check_base.specs.Least.{joined};
ghost use Rattle.check_ports.specs.PortRules.{input_locations};
ghost use Rattle.service_check.specs.Refusals.{refusal_of};
ghost use Rattle.service_check.specs.ServiceRules.{service_refused};

use crate::file_names::{names_refused, no_service};
use crate::files::{interfaces_of, types_of};
use crate::service_rules::service_refused;
use check_base::{Interfaces, Least, Names, Refusal, Types, service_in};
use check_ports::input_locations;
use check_types::file_parts_refused;
use jolie_ast::Definition;
use std::alloc::{AllocError, Global};

/// The refusal of a file that comes first, if there is one.
pub fn first_refusal(alloc: Global, file: &[Definition]) -> Result<Option<Refusal>, AllocError>
    ensures { IfOk result (λ r. r ≡ refusal_of file.now) }
{
    let types = types_of(alloc, file)?;
    let mut least = Least::new();
    no_service(file, &mut least);
    names_refused(alloc, file, &mut least)?;
    file_parts_refused(alloc, &types, file, &mut least)?;
    file_services_refused(alloc, &types, file, &mut least)?;
    Ok(least.first())
}

/// What is refused of the services of a file, by its interfaces and the locations of its input ports.
fn file_services_refused(
    alloc: Global,
    types: &Types,
    file: &[Definition],
    least: &mut Least,
) -> Result<(), AllocError>
    ensures { OnOk result (least.new ≡ joined least.old
        (flat_map (service_refused types.now (interfaces_of file.now) (input_locations (services_of file.now)))
        (services_of file.now))) }
{
    let interfaces = interfaces_of(alloc, file)?;
    let locations = input_locations(alloc, file)?;
    services_refused(alloc, types, &interfaces, &locations, file, least)
}

/// What is refused of the services of a file.
fn services_refused<'a>(
    alloc: Global,
    types: &Types,
    interfaces: &Interfaces<'a>,
    locations: &Names,
    file: &'a [Definition],
    least: &mut Least,
) -> Result<(), AllocError>
    ensures { OnOk result (least.new ≡ joined least.old
        (flat_map (service_refused types.now interfaces.now locations.now) (services_of file.now))) }
{
    for definition in file {
        definition_refused(alloc, types, interfaces, locations, definition, least)?;
    }
    Ok(())
}

/// What is refused of a definition, if it is a service.
fn definition_refused<'a>(
    alloc: Global,
    types: &Types,
    interfaces: &Interfaces<'a>,
    locations: &Names,
    definition: &'a Definition,
    least: &mut Least,
) -> Result<(), AllocError>
    ensures { OnOk result (least.new ≡ joined least.old
        (definition_refused types.now interfaces.now locations.now definition.now)) }
{
    match service_in(definition) {
        Some(service) => service_refused(alloc, types, interfaces, locations, service, least),
        None => Ok(()),
    }
}
