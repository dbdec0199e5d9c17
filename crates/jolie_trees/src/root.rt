ghost use Rattle.std.specs.Prelude.{◌≡◌, IfOk};

use crate::text::Text;
use std::alloc::AllocError;

/// The value of a node.
#[derive(Debug, Drop, PartialEq, Eq)]
pub enum Root {
    Void,
    Bool(bool),
    Int(i32),
    Long(i64),
    Text(Text),
}

impl Root {
    pub fn copied(&self) -> Result<Root, AllocError>
        ensures { IfOk result (λ root. root ≡ self.now) }
    {
        match self {
            Root::Void => Ok(Root::Void),
            Root::Bool(b) => Ok(Root::Bool(*b)),
            Root::Int(n) => Ok(Root::Int(*n)),
            Root::Long(n) => Ok(Root::Long(*n)),
            Root::Text(text) => Ok(Root::Text(text.copied()?)),
        }
    }
}
