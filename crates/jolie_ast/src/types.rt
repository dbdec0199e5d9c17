use crate::name::Name;
use sqlite_items::Items;

/// The kinds of a root that a type names.
#[derive(Clone, Copy, Debug, PartialEq, Eq)]
pub enum RootKind {
    Void,
    Bool,
    Int,
    Long,
    Str,
    Any,
}

/// How often a field may stand, as it is written.
#[derive(Clone, Copy, Debug, PartialEq, Eq)]
pub enum Cardinality {
    /// `?`
    Optional,
    /// `*`
    Any,
    /// `[least, most]`, where `*` is no most
    Between { least: i32, most: Option<i32> },
}

/// `type`, at its place.
#[derive(Drop)]
pub struct TypeDefinition {
    pub at: u32,
    pub name: Name,
    pub body: DefinedType,
}

/// What stands behind the name that is defined.
#[derive(Drop)]
pub enum DefinedType {
    /// `: body`
    Body(TypeBody),
    /// Fields alone.
    Fields(Items<Field>),
}

#[cycle(types)]
#[derive(Drop)]
pub enum TypeBody {
    Root {
        at: u32,
        kind: RootKind,
        /// The fields, if braces are written.
        fields: Option<Items<Field>>,
    },
    Named(Name),
    /// `undefined`, at its place
    Undefined(u32),
}

#[cycle(types)]
#[derive(Drop)]
pub struct Field {
    pub name: Name,
    pub cardinality: Option<Cardinality>,
    pub body: TypeBody,
}
