ghost use Rattle.std.specs.Prelude.{◌≡◌};
ghost use Rattle.jolie_tokens.specs.declared.lex_error.LexError.TheVariants.{Memory};

use std::alloc::AllocError;
use thiserror::Error;

/// Why a text has no tokens, with the place of the byte that is at fault, which is the text's length where its end cuts
/// a character of a comment.
#[derive(Debug, Drop, Error)]
pub enum LexError {
    #[error("the text is too long")]
    TooLong,
    /// No token, blank or comment begins there, or it is the backslash of a bad escape, or a byte of a string or a
    /// comment that continues no UTF-8.
    #[error("bad byte at {0}")]
    BadByte(u32),
    /// A string begins there that is not closed.
    #[error("open string at {0}")]
    OpenString(u32),
    /// A comment begins there that is not closed.
    #[error("open comment at {0}")]
    OpenComment(u32),
    /// Digits begin there that are no number: they are out of range, or followed directly by a letter, `_` or a
    /// fraction.
    #[error("bad number at {0}")]
    BadNumber(u32),
    #[error("out of memory")]
    Memory(AllocError),
}

impl From<AllocError> for LexError {
    ghost from_gives = { λ cause error. error ≡ Memory cause };

    fn from(cause: AllocError) -> LexError {
        LexError::Memory(cause)
    }
}
