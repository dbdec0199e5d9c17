ghost use Rattle.std.specs.Prelude.{◌≡◌, map, IfOk};
ghost use Rattle.behaviour_tree.specs.View.{field_view, type_view};

use jolie_trees::Text;
use std::alloc::AllocError;

/// The kind of a root.
#[derive(Clone, Copy, Debug, PartialEq, Eq)]
pub enum RootKind {
    Void,
    Bool,
    Int,
    Long,
    Text,
    Any,
}

/// A type of trees. `Named` gives a type of the program by its number.
#[cycle(types)]
#[derive(Drop)]
pub enum TypeDef {
    Plain { kind: RootKind, fields: Vec<Field> },
    Named(u32),
    Undefined,
}

/// A field: at least `least` and at most `most` occurrences, any number where `most` is `None`.
#[cycle(types)]
#[derive(Drop)]
pub struct Field {
    pub name: Text,
    pub least: u32,
    pub most: Option<u32>,
    pub ty: TypeDef,
}

impl TypeDef {
    #[cycle(copied)]
    pub fn copied(&self) -> Result<TypeDef, AllocError>
        ensures { IfOk result (λ ty. type_view ty ≡ type_view self.now) }
    {
        match self {
            TypeDef::Plain { kind, fields } => Ok(TypeDef::Plain {
                kind: *kind,
                fields: copied_fields(fields)?,
            }),
            TypeDef::Named(number) => Ok(TypeDef::Named(*number)),
            TypeDef::Undefined => Ok(TypeDef::Undefined),
        }
    }
}

impl Field {
    #[cycle(copied)]
    fn copied(&self) -> Result<Field, AllocError>
        ensures { IfOk result (λ field. field_view field ≡ field_view self.now) }
    {
        Ok(Field {
            name: self.name.copied()?,
            least: self.least,
            most: self.most,
            ty: self.ty.copied()?,
        })
    }
}

#[cycle(copied)]
fn copied_fields(list: &Vec<Field>) -> Result<Vec<Field>, AllocError>
    ensures { IfOk result (λ v. map field_view v.items ≡ map field_view list.now.items) }
{
    let mut copies = Vec::new(*list.allocator());
    for field in list {
        copies.push(field.copied()?)?;
    }
    Ok(copies)
}
