ghost use Rattle.std.specs.Prelude.{◌≡◌, ◌++◌, IfOk};
ghost use Rattle.std.specs.Option.{option_to_list};
ghost use Rattle.check_base.specs.Files.{interface_in, interfaces_of, type_in, types_of};

use check_base::{Interfaces, Types, interface_in, type_in};
use jolie_ast::Definition;
use std::alloc::{AllocError, Global};

/// The types of a file.
pub fn types_of(alloc: Global, file: &[Definition]) -> Result<Types<'_>, AllocError>
    ensures { IfOk result (λ types. types ≡ types_of file.now) }
{
    let mut types = Types::new(alloc);
    for definition in file {
        types = types_with(types, definition)?;
    }
    Ok(types)
}

/// The types with that which a definition is, if it is one.
fn types_with<'a>(types: Types<'a>, definition: &'a Definition) -> Result<Types<'a>, AllocError>
    ensures { IfOk result (λ more. more ≡ types.entry ++ option_to_list (type_in definition.now)) }
{
    match type_in(definition) {
        Some(ty) => types.with(ty),
        None => Ok(types),
    }
}

/// The interfaces of a file.
pub fn interfaces_of(alloc: Global, file: &[Definition]) -> Result<Interfaces<'_>, AllocError>
    ensures { IfOk result (λ interfaces. interfaces ≡ interfaces_of file.now) }
{
    let mut interfaces = Interfaces::new(alloc);
    for definition in file {
        interfaces = interfaces_with(interfaces, definition)?;
    }
    Ok(interfaces)
}

/// The interfaces with that which a definition is, if it is one.
fn interfaces_with<'a>(
    interfaces: Interfaces<'a>,
    definition: &'a Definition,
) -> Result<Interfaces<'a>, AllocError>
    ensures { IfOk result (λ more. more ≡ interfaces.entry ++ option_to_list (interface_in definition.now)) }
{
    match interface_in(definition) {
        Some(interface) => interfaces.with(interface),
        None => Ok(interfaces),
    }
}
