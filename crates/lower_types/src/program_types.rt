ghost use Rattle.std.specs.Prelude.{◌≡◌, ◌++◌, map, IfOk, OnOk};
ghost use Rattle.std.specs.Option.{option_to_list};
ghost use Rattle.behaviour_tree.specs.Data.{no_type_fields, plain};
ghost use Rattle.behaviour_tree.specs.View.{field_view, type_view};
ghost use Rattle.check_base.specs.Files.{type_in, types_of};
ghost use Rattle.lower_types.specs.LoweredTypes.{lowered_body, lowered_data, lowered_definition, lowered_field, lowered_kind, lowered_type, natural};
ghost use Rattle.lower_types.specs.FieldBounds.{least_of, most_of};

use behaviour_tree::{Field, RootKind, TypeDef};
use check_base::{Names, number, type_in};
use jolie_ast::{Cardinality, DefinedType, Definition, TypeBody, TypeDefinition, TypeName};
use std::alloc::{AllocError, Global};

/// The types of a file, in order.
#[tactic(auto, using(check_base::proofs::Loops::each_found))]
pub fn lowered_types(
    alloc: Global,
    file: &[Definition],
    types: &Names<'_>,
) -> Result<Vec<TypeDef>, AllocError>
    ensures { IfOk result (λ v. map type_view v.items ≡ map (lowered_definition types.now) (types_of file.now)) }
{
    let mut lowered = Vec::new(alloc);
    for definition in file {
        add_type(alloc, definition, types, &mut lowered)?;
    }
    Ok(lowered)
}

/// Adds the type that a definition is, if it is one.
fn add_type(
    alloc: Global,
    definition: &Definition,
    types: &Names<'_>,
    lowered: &mut Vec<TypeDef>,
) -> Result<(), AllocError>
    ensures { OnOk result (map type_view lowered.new.items ≡ map type_view lowered.old.items
        ++ map (lowered_definition types.now) (option_to_list (type_in definition.now))) }
{
    match type_in(definition) {
        Some(ty) => {
            lowered.push(lowered_definition(alloc, ty, types)?)?;
            Ok(())
        }
        None => Ok(()),
    }
}

#[tactic(auto, using(crate::proofs::LoweredTypes::fields_alone, crate::proofs::SeenTypes::plain_seen))]
fn lowered_definition(
    alloc: Global,
    ty: &TypeDefinition,
    types: &Names<'_>,
) -> Result<TypeDef, AllocError>
    ensures { IfOk result (λ t. type_view t ≡ lowered_definition types.now ty.now) }
{
    match &ty.body {
        DefinedType::Body(body) => lowered_body(alloc, body, types),
        DefinedType::Fields(fields) => Ok(TypeDef::Plain {
            kind: RootKind::Void,
            fields: lowered_fields(alloc, fields.as_slice(), types)?,
        }),
    }
}

#[cycle(types)]
#[tactic(auto, using(crate::proofs::LoweredTypes::root_lowered, crate::proofs::LoweredTypes::named_lowered, crate::proofs::LoweredTypes::undefined_lowered, crate::proofs::SeenTypes::plain_seen, crate::proofs::SeenTypes::named_seen, crate::proofs::SeenTypes::undefined_seen))]
fn lowered_body(alloc: Global, body: &TypeBody, types: &Names<'_>) -> Result<TypeDef, AllocError>
    ensures { IfOk result (λ t. type_view t ≡ lowered_body types.now body.now) }
{
    match body {
        TypeBody::Root { kind, fields, .. } => {
            let kind = lowered_kind(*kind);
            match fields {
                None => Ok(bare(alloc, kind)),
                Some(fields) => Ok(TypeDef::Plain {
                    kind,
                    fields: lowered_fields(alloc, fields.as_slice(), types)?,
                }),
            }
        }
        TypeBody::Named(name) => Ok(TypeDef::Named(number(types, name.text.as_str())?)),
        TypeBody::Undefined(_) => Ok(TypeDef::Undefined),
    }
}

#[cycle(types)]
fn lowered_fields(
    alloc: Global,
    fields: &[jolie_ast::Field],
    types: &Names<'_>,
) -> Result<Vec<Field>, AllocError>
    ensures { IfOk result (λ v. map field_view v.items ≡ map (lowered_field types.now) fields.now) }
{
    let mut lowered = Vec::new(alloc);
    for field in fields {
        lowered.push(lowered_field(alloc, field, types)?)?;
    }
    Ok(lowered)
}

#[cycle(types)]
#[tactic(auto, using(crate::proofs::LoweredTypes::field_is, crate::proofs::SeenTypes::field_seen))]
fn lowered_field(
    alloc: Global,
    field: &jolie_ast::Field,
    types: &Names<'_>,
) -> Result<Field, AllocError>
    ensures { IfOk result (λ f. field_view f ≡ lowered_field types.now field.now) }
{
    let name = field.name.text.copied()?;
    Ok(Field {
        name,
        least: least_of(field.cardinality),
        most: most_of(field.cardinality),
        ty: lowered_body(alloc, &field.body, types)?,
    })
}

fn lowered_kind(kind: jolie_ast::RootKind) -> RootKind
    ensures { result ≡ lowered_kind kind }
{
    match kind {
        jolie_ast::RootKind::Void => RootKind::Void,
        jolie_ast::RootKind::Bool => RootKind::Bool,
        jolie_ast::RootKind::Int => RootKind::Int,
        jolie_ast::RootKind::Long => RootKind::Long,
        jolie_ast::RootKind::Str => RootKind::Text,
        jolie_ast::RootKind::Any => RootKind::Any,
    }
}

/// A number that is written, which has no sign.
fn natural(number: i32) -> u32
    ensures { result ≡ natural number }
{
    if number < 0 { 0 } else { number as u32 }
}

/// The least number of a field: 1 where nothing is written.
fn least_of(cardinality: Option<Cardinality>) -> u32
    ensures { result ≡ least_of cardinality }
{
    match cardinality {
        None => 1,
        Some(Cardinality::Optional) => 0,
        Some(Cardinality::Any) => 0,
        Some(Cardinality::Between { least, .. }) => natural(least),
    }
}

/// The greatest number of a field: 1 where nothing is written, any number for `*`.
fn most_of(cardinality: Option<Cardinality>) -> Option<u32>
    ensures { result ≡ most_of cardinality }
{
    match cardinality {
        None => Some(1),
        Some(Cardinality::Optional) => Some(1),
        Some(Cardinality::Any) => None,
        Some(Cardinality::Between { most, .. }) => match most {
            Some(most) => Some(natural(most)),
            None => None,
        },
    }
}

/// The type that a name of a type means.
#[tactic(auto, using(crate::proofs::SeenTypes::named_seen, crate::proofs::SeenTypes::undefined_seen))]
pub fn lowered_type(alloc: Global, ty: &TypeName, types: &Names<'_>) -> Result<TypeDef, AllocError>
    ensures { IfOk result (λ t. type_view t ≡ lowered_type types.now ty.now) }
{
    match ty {
        TypeName::Root { kind, .. } => Ok(bare(alloc, lowered_kind(*kind))),
        TypeName::Named(name) => Ok(TypeDef::Named(number(types, name.text.as_str())?)),
        TypeName::Undefined(_) => Ok(TypeDef::Undefined),
    }
}

/// The type of a fault's data, which is void where none is written.
pub fn lowered_data(
    alloc: Global,
    ty: &Option<TypeName>,
    types: &Names<'_>,
) -> Result<TypeDef, AllocError>
    ensures { IfOk result (λ t. type_view t ≡ lowered_data types.now ty.now) }
{
    match ty {
        None => Ok(bare(alloc, RootKind::Void)),
        Some(ty) => lowered_type(alloc, ty, types),
    }
}

/// A root with no fields.
#[tactic(auto, using(crate::proofs::SeenTypes::plain_seen))]
fn bare(alloc: Global, kind: RootKind) -> TypeDef
    ensures { type_view result ≡ plain kind no_type_fields }
{
    TypeDef::Plain {
        kind,
        fields: Vec::new(alloc),
    }
}
