ghost use Rattle.std.specs.Prelude.{◌≡◌, map, IfOk};
ghost use Rattle.behaviour_tree.specs.PartsView.{parts_view, service_view};
ghost use Rattle.check_base.specs.Files.{interfaces_of, services_of, types_of, type_names};
ghost use Rattle.service_check.specs.Mentioned.{names_of};
ghost use Rattle.service_check.specs.Programs.{lowered_service, program_of};

use crate::files::{interfaces_of, types_of};
use crate::mentioned::names_of;
use crate::program_services::lowered_services;
use behaviour_tree::{Parts, Service};
use check_base::Names;
use jolie_ast::Definition;
use jolie_trees::Text;
use lower_types::{lowered_interfaces, lowered_types};
use std::alloc::{AllocError, Global};

/// What the program of a file consists of.
#[tactic(auto, unfolding(crate::specs::Programs::program_of))]
pub fn parts_of_file(alloc: Global, file: &[Definition]) -> Result<Parts, AllocError>
    ensures { IfOk result (λ parts. parts_view parts ≡ program_of file.now) }
{
    let types = types_of(alloc, file)?;
    let names = names_of(alloc, file)?;
    parts_by_names(alloc, file, types.names(), &names)
}

/// What the program of a file consists of, where the names of its types and all of its names are at hand.
fn parts_by_names(
    alloc: Global,
    file: &[Definition],
    types: &Names<'_>,
    names: &Names<'_>,
) -> Result<Parts, AllocError>
    requires types { types.now ≡ type_names (types_of file.now) }
    requires names { names.now ≡ names_of file.now }
    ensures { IfOk result (λ parts. parts_view parts ≡ program_of file.now) }
{
    let definitions = lowered_types(alloc, file, types)?;
    let interfaces = lowered_interfaces(alloc, file, types, names)?;
    let services = services_by_names(alloc, file, types, names)?;
    Ok(Parts {
        types: definitions,
        interfaces,
        services,
        names: copied_texts(alloc, names.texts())?,
    })
}

/// The services of a file, where the names of types and all names are at hand.
fn services_by_names(
    alloc: Global,
    file: &[Definition],
    types: &Names<'_>,
    names: &Names<'_>,
) -> Result<Vec<Service>, AllocError>
    ensures { IfOk result
        (λ v. map service_view v.items ≡ map (lowered_service (interfaces_of file.now) types.now names.now)
        (services_of file.now)) }
{
    let interfaces = interfaces_of(alloc, file)?;
    lowered_services(alloc, file, &interfaces, types, names)
}

fn copied_texts(alloc: Global, texts: &[&str]) -> Result<Vec<Text>, AllocError>
    ensures { IfOk result (λ v. v.items ≡ map (λ t. t.now) texts.now) }
{
    let mut copies = Vec::new(alloc);
    for text in texts {
        copies.push(Text::new(alloc, text)?)?;
    }
    Ok(copies)
}
