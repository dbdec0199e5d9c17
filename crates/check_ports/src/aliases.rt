ghost use Rattle.std.specs.Prelude.{◌≡◌, ◌∷◌, Some};
ghost use Rattle.std.specs.Option.{option_copied};
ghost use Rattle.jolie_ast.specs.declared.types.TypeBody.{out-TypeBody};
ghost use Rattle.check_ports.specs.SetRules.{alias_type, field_named, fields_in, is_once, is_value, is_value_kind, leads_to_value, once_in};
ghost use Rattle.check_base.specs.Files.{body_of, name_in};
ghost use Rattle.check_base.specs.TypeNames.{behind_names};

use check_base::Types;
use jolie_ast::{Alias, Cardinality, DefinedType, Field, Name, RootKind, TypeBody, TypeDefinition};
use std::marker::Model;

/// How the body of a type is written.
#[derive(Drop)]
enum WrittenBody<'a> {
    Body(&'a TypeBody),
    /// Fields alone, whose root is void.
    Fields(&'a [Field]),
}

/// The body of a type.
#[derive(Drop)]
struct Body<'a> {
    written: WrittenBody<'a>,
}

impl<'a> Model for Body<'a> {
    ghost use Rattle.std.specs.Coded.{codes};
    ghost use Rattle.jolie_ast.specs.contracts.types.TypeBody as body;
    ghost use Rattle.jolie_ast.specs.declared.types.TypeBody.{TypeBody};
    ghost use Rattle.check_ports.specs.WrittenBodies.{written_body};

    ghost Value = { TypeBody };

    ghost coded = { Prim.hlevel (codes, body.the_row.coded) };

    ghost view = { λ b. written_body b.written };
}

impl<'a> Body<'a> {
    /// The body of a type that is defined.
    fn of(ty: &'a TypeDefinition) -> Body<'a>
        ensures { result ≡ body_of ty.now.body }
    {
        match &ty.body {
            DefinedType::Body(body) => Body::written(body),
            DefinedType::Fields(fields) => Body {
                written: WrittenBody::Fields(fields.as_slice()),
            },
        }
    }

    fn written(body: &'a TypeBody) -> Body<'a>
        ensures { result ≡ body.now }
    {
        Body {
            written: WrittenBody::Body(body),
        }
    }

    /// The name that it is, if it is one.
    fn name(&self) -> Option<&'a str>
        ensures { option_copied result ≡ name_in (out-TypeBody self.now) }
    {
        match self.written {
            WrittenBody::Body(body) => name_of(body),
            WrittenBody::Fields(_) => None,
        }
    }

    fn fields(&self) -> &'a [Field]
        ensures { result.now ≡ fields_in (out-TypeBody self.now) }
    {
        match self.written {
            WrittenBody::Body(body) => fields_of(body),
            WrittenBody::Fields(fields) => fields,
        }
    }

    /// A root of a kind that a variable may have.
    fn is_value(&self) -> bool
        ensures { result ≡ is_value (out-TypeBody self.now) }
    {
        match self.written {
            WrittenBody::Body(body) => is_value(body),
            WrittenBody::Fields(_) => false,
        }
    }
}

fn name_of(body: &TypeBody) -> Option<&str>
    ensures { option_copied result ≡ name_in (out-TypeBody body.now) }
{
    match body {
        TypeBody::Named(name) => Some(name.text.as_str()),
        TypeBody::Root { .. } => None,
        TypeBody::Undefined(_) => None,
    }
}

fn fields_of(body: &TypeBody) -> &[Field]
    ensures { result.now ≡ fields_in (out-TypeBody body.now) }
{
    match body {
        TypeBody::Root { fields, .. } => match fields {
            Some(fields) => fields.as_slice(),
            None => &[],
        },
        TypeBody::Named(_) => &[],
        TypeBody::Undefined(_) => &[],
    }
}

fn is_value(body: &TypeBody) -> bool
    ensures { result ≡ is_value (out-TypeBody body.now) }
{
    match body {
        TypeBody::Root { kind, .. } => is_value_kind(*kind),
        TypeBody::Named(_) => false,
        TypeBody::Undefined(_) => false,
    }
}

/// The kinds that a variable of a set may have.
fn is_value_kind(kind: RootKind) -> bool
    ensures { result ≡ is_value_kind kind }
{
    match kind {
        RootKind::Bool | RootKind::Int | RootKind::Long | RootKind::Str => true,
        RootKind::Void | RootKind::Any => false,
    }
}

/// The type behind a body's names; one that is not there or leads back has none.
#[tactic(auto, using(crate::proofs::Behind::behind_no_name, crate::proofs::Behind::behind_last_name, crate::proofs::Behind::behind_unknown, crate::proofs::Behind::behind_known))]
fn behind_names<'a>(types: &Types<'a>, body: Body<'a>) -> Option<Body<'a>>
    ensures { result ≡ behind_names types.now body.entry }
{
    let mut body = body;
    let mut left = types.len();
    while let Some(name) = body.name() {
        if left == 0 {
            return None;
        }
        left -= 1;
        body = Body::of(types.get(name)?);
    }
    Some(body)
}

/// A field that stands exactly once.
fn is_once(cardinality: Option<Cardinality>) -> bool
    ensures { result ≡ is_once cardinality }
{
    match cardinality {
        None => true,
        Some(Cardinality::Between { least, most }) => most.is_some_and(|most| least == 1
            && most == 1),
        Some(Cardinality::Optional) => false,
        Some(Cardinality::Any) => false,
    }
}

/// The first field of a name.
fn field_named<'a>(fields: &'a [Field], name: &str) -> Option<&'a Field>
    ensures { option_copied result ≡ field_named fields.now name.now }
{
    for field in fields {
        if field.name.text.as_str() == name {
            return Some(field);
        }
    }
    None
}

/// The type behind the names of a field that stands once.
fn once_in<'a>(types: &Types<'a>, body: &Body<'a>, name: &Name) -> Option<Body<'a>>
    ensures { result ≡ once_in types.now body.now name.now }
{
    let field = field_named(body.fields(), name.text.as_str())?;
    if is_once(field.cardinality) {
        behind_names(types, Body::written(&field.body))
    } else {
        None
    }
}

/// The type that an alias begins at, behind its names.
fn alias_type<'a>(types: &Types<'a>, alias: &Alias) -> Option<Body<'a>>
    ensures { result ≡ alias_type types.now alias.now }
{
    let ty = types.get(alias.ty.text.as_str())?;
    behind_names(types, Body::of(ty))
}

/// Whether an alias leads by fields that stand once to a root that a variable may have.
pub fn leads_to_value(types: &Types, alias: &Alias) -> bool
    ensures { result ≡ leads_to_value types.now (alias_type types.now alias.now) (alias.now.first ∷ alias.now.rest) }
{
    let Some(body) = alias_type(types, alias) else {
        return false;
    };
    let Some(body) = once_in(types, &body, &alias.first) else {
        return false;
    };
    path_leads_to_value(types, body, alias.rest.as_slice())
}

/// Whether a path of fields that stand once leads to a root that a variable may have.
fn path_leads_to_value<'a>(types: &Types<'a>, body: Body<'a>, path: &[Name]) -> bool
    ensures { result ≡ leads_to_value types.now (Some body.entry) path.now }
{
    let mut body = body;
    for name in path {
        match once_in(types, &body, name) {
            Some(next) => body = next,
            None => return false,
        }
    }
    body.is_value()
}
