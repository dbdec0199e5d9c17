use crate::name::Name;
use crate::types::RootKind;
use sqlite_items::Items;

/// A type that an operation names.
#[derive(Debug, Drop)]
pub enum TypeName {
    Root { at: u32, kind: RootKind },
    Named(Name),
    /// `undefined`, at its place
    Undefined(u32),
}

/// A fault that `throws` names, with the type of its data if one is written.
#[derive(Debug, Drop)]
pub struct Fault {
    pub name: Name,
    pub ty: Option<TypeName>,
}

#[derive(Debug, Drop)]
pub struct RequestResponse {
    pub name: Name,
    pub request: TypeName,
    pub response: TypeName,
    pub throws: Items<Fault>,
}

#[derive(Debug, Drop)]
pub struct OneWay {
    pub name: Name,
    pub request: TypeName,
}

/// Operations behind one word `RequestResponse` or `OneWay`.
#[derive(Debug, Drop)]
pub enum OperationGroup {
    RequestResponse {
        at: u32,
        operations: Items<RequestResponse>,
    },
    OneWay {
        at: u32,
        operations: Items<OneWay>,
    },
}

#[derive(Debug, Drop)]
pub struct Interface {
    pub at: u32,
    pub name: Name,
    pub groups: Items<OperationGroup>,
}
