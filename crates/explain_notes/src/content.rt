//! Which operations are content with a void answer.

ghost use Rattle.std.specs.Prelude.{◌≡◌, false, [], ◌++◌, IfOk, OnOk, map, option_map, unwrap_or};
ghost use Rattle.std.specs.Option.{option_copied, option_to_list};
ghost use Rattle.check_base.specs.Files.{answering, body_of, group_operations, operations_in, type_in, types_of};
ghost use Rattle.explain_notes.specs.Answers as spec;

use check_base::{Names, Types, interface_in, type_in};
use jolie_ast::{
    Cardinality, DefinedType, Definition, Field, Interface, OperationGroup, RequestResponse,
    RootKind, TypeBody, TypeDefinition, TypeName,
};
use sqlite_items::Items;
use std::alloc::{AllocError, Global};

/// The names of the operations of a file that are content with a void answer.
pub fn content_names(alloc: Global, file: &[Definition]) -> Result<Names<'_>, AllocError>
    ensures { IfOk result (λ names. names ≡ spec.content_names file.now) }
{
    let types = types_in(alloc, file)?;
    content_in(alloc, &types, file)
}

/// The names of those of a file, by these types.
fn content_in<'a>(
    alloc: Global,
    types: &Types<'a>,
    file: &'a [Definition],
) -> Result<Names<'a>, AllocError>
    ensures { IfOk result (λ names. names ≡ spec.content_in types.now file.now) }
{
    let mut names = Names::new(alloc);
    for definition in file {
        if let Some(interface) = interface_in(definition) {
            add_interface(types, interface, &mut names)?;
        }
    }
    Ok(names)
}

/// The types of a file.
fn types_in(alloc: Global, file: &[Definition]) -> Result<Types<'_>, AllocError>
    ensures { IfOk result (λ types. types ≡ types_of file.now) }
{
    let mut types = Types::new(alloc);
    for definition in file {
        types = types_with(types, definition)?;
    }
    Ok(types)
}

/// The types with that which a definition is, if it is one.
fn types_with<'a>(types: Types<'a>, definition: &'a Definition) -> Result<Types<'a>, AllocError>
    ensures { IfOk result (λ more. more ≡ types.entry ++ option_to_list (type_in definition.now)) }
{
    match type_in(definition) {
        Some(ty) => types.with(ty),
        None => Ok(types),
    }
}

fn add_interface<'a>(
    types: &Types<'a>,
    interface: &'a Interface,
    names: &mut Names<'a>,
) -> Result<(), AllocError>
    ensures { OnOk result (names.new ≡ names.old ++ spec.content_among types.now (operations_in interface.now)) }
{
    for group in interface.groups.as_slice() {
        add_group(types, group, names)?;
    }
    Ok(())
}

fn add_group<'a>(
    types: &Types<'a>,
    group: &'a OperationGroup,
    names: &mut Names<'a>,
) -> Result<(), AllocError>
    ensures { OnOk result (names.new ≡ names.old ++ spec.content_among types.now (group_operations group.now)) }
{
    match group {
        OperationGroup::RequestResponse { operations, .. } => {
            add_content(types, operations.as_slice(), names)
        }
        OperationGroup::OneWay { .. } => Ok(()),
    }
}

fn add_content<'a>(
    types: &Types<'a>,
    operations: &'a [RequestResponse],
    names: &mut Names<'a>,
) -> Result<(), AllocError>
    ensures { OnOk result (names.new ≡ names.old ++ spec.content_among types.now (map answering operations.now)) }
{
    for operation in operations {
        if !asks_type(types, &operation.response) {
            names.add(operation.name.text.as_str())?;
        }
    }
    Ok(())
}

/// Whether the type that an operation names asks for more than void.
fn asks_type(types: &Types<'_>, ty: &TypeName) -> bool
    ensures { result ≡ spec.asks_type types.now ty.now }
{
    match ty {
        TypeName::Root { kind, .. } => asks_root(*kind),
        TypeName::Named(name) => asks_defined(types.get(name.text.as_str())),
        TypeName::Undefined(_) => false,
    }
}

fn asks_defined(ty: Option<&TypeDefinition>) -> bool
    ensures { result ≡ unwrap_or (option_map spec.asks_definition (option_copied ty.entry)) false }
{
    match ty {
        Some(ty) => asks_definition(&ty.body),
        None => false,
    }
}

fn asks_definition(body: &DefinedType) -> bool
    ensures { result ≡ spec.asks_body (body_of body.now) }
{
    match body {
        DefinedType::Body(body) => asks_body(body),
        DefinedType::Fields(fields) => asks_fields(fields.as_slice()),
    }
}

/// Whether the body of a type asks for more than void; another name is not looked behind.
fn asks_body(body: &TypeBody) -> bool
    ensures { result ≡ spec.asks_body body.now }
{
    match body {
        TypeBody::Root { kind, fields, .. } => asks_root(*kind) || asks_braces(fields),
        TypeBody::Named(_) => false,
        TypeBody::Undefined(_) => false,
    }
}

fn asks_braces(fields: &Option<Items<Field>>) -> bool
    ensures { result ≡ spec.asks_fields (unwrap_or fields.now []) }
{
    match fields {
        Some(fields) => asks_fields(fields.as_slice()),
        None => false,
    }
}

/// Whether one of these fields has to stand.
fn asks_fields(fields: &[Field]) -> bool
    ensures { result ≡ spec.asks_fields fields.now }
{
    for field in fields {
        if asks_often(field.cardinality) {
            return true;
        }
    }
    false
}

/// Whether a field that stands so often has to stand.
fn asks_often(cardinality: Option<Cardinality>) -> bool
    ensures { result ≡ spec.asks_often cardinality }
{
    match cardinality {
        None => true,
        Some(Cardinality::Optional) => false,
        Some(Cardinality::Any) => false,
        Some(Cardinality::Between { least, .. }) => 1 <= least,
    }
}

/// Whether a root is one that void is not.
fn asks_root(kind: RootKind) -> bool
    ensures { result ≡ spec.asks_root kind }
{
    match kind {
        RootKind::Void => false,
        RootKind::Bool => true,
        RootKind::Int => true,
        RootKind::Long => true,
        RootKind::Str => true,
        RootKind::Any => false,
    }
}
