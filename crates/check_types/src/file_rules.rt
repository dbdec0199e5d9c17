ghost use Rattle.std.specs.Prelude.{◌≡◌, ◌++◌, OnOk, flat_map};
ghost use Rattle.std.specs.Option.{option_to_list};
ghost use Rattle.check_base.specs.Files.{interface_in, interfaces_of, type_in, types_of};
ghost use Rattle.check_types.specs.InterfaceRules.{interface_refused};
ghost use Rattle.check_base.specs.Least.{joined};
ghost use Rattle.check_types.specs.TypeRules.{type_refused};

use crate::circles::Circles;
use crate::interface_rules::interface_refused;
use crate::type_rules::type_refused;
use check_base::{Least, Types, interface_in, type_in};
use jolie_ast::Definition;
use std::alloc::{AllocError, Global};

/// What is refused of the types and the interfaces of a file.
#[tactic(auto, using(check_base::proofs::Joined::joined_append))]
pub fn file_parts_refused(
    alloc: Global,
    types: &Types,
    file: &[Definition],
    least: &mut Least,
) -> Result<(), AllocError>
    ensures { OnOk result (least.new ≡ joined least.old
        (flat_map (type_refused types.now) (types_of file.now)
        ++ flat_map (interface_refused types.now) (interfaces_of file.now))) }
{
    types_refused(alloc, types, file, least)?;
    interfaces_refused(alloc, types, file, least)
}

fn types_refused(
    alloc: Global,
    types: &Types,
    file: &[Definition],
    least: &mut Least,
) -> Result<(), AllocError>
    ensures { OnOk result (least.new ≡ joined least.old (flat_map (type_refused types.now) (types_of file.now))) }
{
    let circles = Circles::of(alloc, types)?;
    for definition in file {
        defined_type_refused(alloc, &circles, definition, least)?;
    }
    Ok(())
}

fn defined_type_refused(
    alloc: Global,
    circles: &Circles,
    definition: &Definition,
    least: &mut Least,
) -> Result<(), AllocError>
    ensures { OnOk result (least.new ≡ joined least.old
        (flat_map (type_refused circles.now) (option_to_list (type_in definition.now)))) }
{
    match type_in(definition) {
        Some(ty) => type_refused(alloc, circles, ty, least),
        None => Ok(()),
    }
}

fn interfaces_refused(
    alloc: Global,
    types: &Types,
    file: &[Definition],
    least: &mut Least,
) -> Result<(), AllocError>
    ensures { OnOk result (least.new ≡ joined least.old
        (flat_map (interface_refused types.now) (interfaces_of file.now))) }
{
    for definition in file {
        defined_interface_refused(alloc, types, definition, least)?;
    }
    Ok(())
}

fn defined_interface_refused(
    alloc: Global,
    types: &Types,
    definition: &Definition,
    least: &mut Least,
) -> Result<(), AllocError>
    ensures { OnOk result (least.new ≡ joined least.old
        (flat_map (interface_refused types.now) (option_to_list (interface_in definition.now)))) }
{
    match interface_in(definition) {
        Some(interface) => interface_refused(alloc, types, interface, least),
        None => Ok(()),
    }
}
