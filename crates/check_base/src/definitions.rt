ghost use Rattle.std.specs.Prelude.{◌≡◌};
ghost use Rattle.std.specs.Option.{option_copied};
ghost use Rattle.check_base.specs.Files.{interface_in, service_in, type_in};

use jolie_ast::{Definition, Interface, Service, TypeDefinition};

/// A definition, if it is a type.
pub fn type_in(definition: &Definition) -> Option<&TypeDefinition>
    ensures { option_copied result ≡ type_in definition.now }
{
    match definition {
        Definition::Type(ty) => Some(ty),
        Definition::Interface(_) => None,
        Definition::Service(_) => None,
    }
}

/// A definition, if it is an interface.
pub fn interface_in(definition: &Definition) -> Option<&Interface>
    ensures { option_copied result ≡ interface_in definition.now }
{
    match definition {
        Definition::Type(_) => None,
        Definition::Interface(interface) => Some(interface),
        Definition::Service(_) => None,
    }
}

/// A definition, if it is a service.
pub fn service_in(definition: &Definition) -> Option<&Service>
    ensures { option_copied result ≡ service_in definition.now }
{
    match definition {
        Definition::Type(_) => None,
        Definition::Interface(_) => None,
        Definition::Service(service) => Some(service),
    }
}
