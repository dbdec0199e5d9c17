ghost use Rattle.std.specs.Prelude.{◌≡◌, OnOk, IfOk, flat_map, map};
ghost use Rattle.jolie_ast.specs.declared.types.Field.{Field, out-Field};
ghost use Rattle.check_base.specs.Least.{joined};
ghost use Rattle.check_base.specs.Files.{body_of};
ghost use Rattle.check_types.specs.TypeRules.{body_refused, circle, field_names_refused, field_refused, type_refused, unknown_type, unknown_type_name};

use crate::circles::Circles;
use check_base::{CheckName, Least, Mention, Types, repeated_refused};
use jolie_ast::{DefinedType, Field, Name, TypeBody, TypeDefinition, TypeName};
use std::alloc::{AllocError, Global};

/// What is refused of a type of the file.
#[tactic(auto, using(check_base::proofs::Joined::joined_append))]
pub fn type_refused(
    alloc: Global,
    circles: &Circles,
    ty: &TypeDefinition,
    least: &mut Least,
) -> Result<(), AllocError>
    ensures { OnOk result (least.new ≡ joined least.old (type_refused circles.now ty.now)) }
{
    defined_refused(alloc, circles.types(), &ty.body, least)?;
    circle(circles, ty, least);
    Ok(())
}

/// What is refused of what a type is defined as.
#[tactic(auto, using(check_base::proofs::Joined::joined_append, crate::proofs::BodyRules::fields_alone))]
fn defined_refused(
    alloc: Global,
    types: &Types,
    body: &DefinedType,
    least: &mut Least,
) -> Result<(), AllocError>
    ensures { OnOk result (least.new ≡ joined least.old (body_refused types.now (body_of body.now))) }
{
    match body {
        DefinedType::Body(body) => body_refused(body, alloc, types, least),
        DefinedType::Fields(fields) => {
            field_names_refused(alloc, fields.as_slice(), least)?;
            fields_refused(fields.as_slice(), alloc, types, least)
        }
    }
}

/// A type whose names lead back to itself.
fn circle(circles: &Circles, ty: &TypeDefinition, least: &mut Least)
    ensures { least.new ≡ joined least.old (circle circles.now ty.now) }
{
    let is_circle = circles.leads_back(ty.name.text.as_str());
    least.offer_if(is_circle, CheckName::UnknownType, ty.name.at);
}

/// A name of a type has to be there.
pub fn unknown_type(types: &Types, name: &Name, least: &mut Least)
    ensures { least.new ≡ joined least.old (unknown_type types.now name.now) }
{
    let is_unknown = !types.has(name.text.as_str());
    least.offer_if(is_unknown, CheckName::UnknownType, name.at);
}

/// A type of an operation has to be there.
pub fn unknown_type_name(types: &Types, ty: &TypeName, least: &mut Least)
    ensures { least.new ≡ joined least.old (unknown_type_name types.now ty.now) }
{
    match ty {
        TypeName::Named(name) => unknown_type(types, name, least),
        TypeName::Root { .. } => {}
        TypeName::Undefined(_) => {}
    }
}

/// The names of fields.
fn field_names(alloc: Global, fields: &[Field]) -> Result<Vec<Mention<'_>>, AllocError>
    ensures { IfOk result (λ names. names.items ≡ map (λ (f : Field). (out-Field f).name) fields.now) }
{
    let mut names = Vec::new(alloc);
    for field in fields {
        names.push(Mention::name(&field.name))?;
    }
    Ok(names)
}

/// Refuses each field that stands a second time.
fn field_names_refused(alloc: Global, fields: &[Field], least: &mut Least) -> Result<(), AllocError>
    ensures { OnOk result (least.new ≡ joined least.old (field_names_refused fields.now)) }
{
    let names = field_names(alloc, fields)?;
    repeated_refused(alloc, names.as_slice(), least)
}

/// Fields of one name, and names of types that are not there.
#[cycle(types)]
#[tactic(auto, using(check_base::proofs::Joined::joined_append, crate::proofs::BodyRules::root_alone, crate::proofs::BodyRules::root_with_fields, crate::proofs::BodyRules::named_body, crate::proofs::BodyRules::undefined_body))]
pub fn body_refused(
    body: &TypeBody,
    alloc: Global,
    types: &Types,
    least: &mut Least,
) -> Result<(), AllocError>
    ensures { OnOk result (least.new ≡ joined least.old (body_refused types.now body.now)) }
{
    match body {
        TypeBody::Root { fields, .. } => match fields {
            Some(fields) => {
                field_names_refused(alloc, fields.as_slice(), least)?;
                fields_refused(fields.as_slice(), alloc, types, least)
            }
            None => Ok(()),
        },
        TypeBody::Named(name) => {
            unknown_type(types, name, least);
            Ok(())
        }
        TypeBody::Undefined(_) => Ok(()),
    }
}

/// What is refused of the types of fields.
#[cycle(types)]
fn fields_refused(
    fields: &[Field],
    alloc: Global,
    types: &Types,
    least: &mut Least,
) -> Result<(), AllocError>
    ensures { OnOk result (least.new ≡ joined least.old (flat_map (field_refused types.now) fields.now)) }
{
    for field in fields {
        field_refused(field, alloc, types, least)?;
    }
    Ok(())
}

/// What is refused of the type of a field.
#[cycle(types)]
#[tactic(auto, using(crate::proofs::BodyRules::field_is))]
fn field_refused(
    field: &Field,
    alloc: Global,
    types: &Types,
    least: &mut Least,
) -> Result<(), AllocError>
    ensures { OnOk result (least.new ≡ joined least.old (field_refused types.now field.now)) }
{
    body_refused(&field.body, alloc, types, least)
}
