//! Types as words.

use crate::error::WordError;
use behaviour_tree::{Field, RootKind, TypeDef};
use jolie_trees::Text;
use std::alloc::Global;

/// The type that words make: a type is put on a pile, and `=name:least-most` makes the last one a field of the one
/// before it, once where nothing says how often and any number of times at least where the most is `*`.
/// A kind of root is a type without fields, and `#number` names a type of the program.
pub fn read_type(alloc: Global, words: &str) -> Result<TypeDef, WordError> {
    let mut pile = Pile {
        alloc,
        types: Vec::new(alloc),
    };
    for word in words.split(' ') {
        pile.word(word)?;
    }
    pile.last()
}

/// The types so far.
#[derive(Drop)]
struct Pile {
    alloc: Global,
    types: Vec<TypeDef>,
}

impl Pile {
    fn last(&mut self) -> Result<TypeDef, WordError> {
        self.types.pop().ok_or(WordError::Lacking)
    }

    fn word(&mut self, word: &str) -> Result<(), WordError> {
        match word.strip_prefix('=') {
            Some(field) => self.put_below(field),
            None => self.put(word),
        }
    }

    fn put(&mut self, word: &str) -> Result<(), WordError> {
        let ty = plain_type(self.alloc, word)?;
        self.types.push(ty)?;
        Ok(())
    }

    fn put_below(&mut self, field: &str) -> Result<(), WordError> {
        let (name, bounds) = field.split_once(':').unwrap_or((field, "1"));
        let ty = self.last()?;
        let field = bounded(self.alloc, name, bounds, ty)?;
        match self.types.last_mut() {
            Some(TypeDef::Plain { fields, .. }) => {
                fields.push(field)?;
                Ok(())
            }
            _ => Err(WordError::Lacking),
        }
    }
}

fn plain_type(alloc: Global, word: &str) -> Result<TypeDef, WordError> {
    if word == "undefined" {
        return Ok(TypeDef::Undefined);
    }
    if let Some(digits) = word.strip_prefix('#') {
        let number = u32::from_str_radix(digits, 10).map_err(|_| WordError::Unknown)?;
        return Ok(TypeDef::Named(number));
    }
    let kind = root_kind(word).ok_or(WordError::Unknown)?;
    Ok(TypeDef::Plain {
        kind,
        fields: Vec::new(alloc),
    })
}

fn root_kind(word: &str) -> Option<RootKind> {
    match word {
        "void" => Some(RootKind::Void),
        "bool" => Some(RootKind::Bool),
        "int" => Some(RootKind::Int),
        "long" => Some(RootKind::Long),
        "string" => Some(RootKind::Text),
        "any" => Some(RootKind::Any),
        _ => None,
    }
}

/// A field that occurs as often as the bounds say.
fn bounded(alloc: Global, name: &str, bounds: &str, ty: TypeDef) -> Result<Field, WordError> {
    let (least, most) = bounds.split_once('-').unwrap_or((bounds, bounds));
    let name = Text::new(alloc, name)?;
    let least = u32::from_str_radix(least, 10).map_err(|_| WordError::Unknown)?;
    Ok(Field {
        name,
        least,
        most: u32::from_str_radix(most, 10).ok(),
        ty,
    })
}
