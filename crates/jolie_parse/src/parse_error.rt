ghost use Rattle.std.specs.Prelude.{◌≡◌};
ghost use Rattle.jolie_parse.specs.declared.parse_error.ParseError.TheVariants.{Memory};

use std::alloc::AllocError;
use thiserror::Error;

/// Why tokens are no file, with the place of the token that is at fault, or the text's length where none is left.
#[derive(Debug, Drop, Error)]
pub enum ParseError {
    /// The tokens before it begin a file, and with it they begin none.
    #[error("syntax at {0}")]
    Syntax(u32),
    /// The token opens a level too many.
    #[error("too deep at {0}")]
    TooDeep(u32),
    #[error("out of memory")]
    Memory(AllocError),
}

impl From<AllocError> for ParseError {
    ghost from_gives = { λ cause error. error ≡ Memory cause };

    fn from(cause: AllocError) -> ParseError {
        ParseError::Memory(cause)
    }
}
