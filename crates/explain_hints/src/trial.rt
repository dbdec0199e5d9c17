//! What comes of bytes with a sample after them.

ghost use Rattle.std.specs.Prelude.{◌≡◌, ◌∷◌, ◌++◌, IfOk, MatchBool};
ghost use Rattle.explain_hints.specs.MayStand.{IsNoMemory, MayGoOn};
ghost use Rattle.explain_hints.specs.Short.{StandFor};

use jolie_parse::{Beginning, ParseError, begin_file, parse};
use jolie_tokens::{LexError, Token, lex};
use std::alloc::{AllocError, Global};

/// How deep the parts of a file may nest.
const LEVELS: u32 = 64;

/// Bytes, and on a line of its own a sample.
#[tactic(auto, using(crate::proofs::Trials::tried_is))]
pub(crate) fn with_sample(alloc: Global, front: &[u8], sample: &str) -> Result<Vec<u8>, AllocError>
    ensures { IfOk result (λ bytes. bytes.items ≡ front.now ++ 10 ∷ sample.now) }
{
    let mut bytes = Vec::from_slice(alloc, front)?;
    bytes.push(b'\n')?;
    bytes.extend_from_slice(sample.as_bytes())?;
    Ok(bytes)
}

/// Whether bytes are a file or begin one, by few tokens that stand for theirs.
pub(crate) fn begins(alloc: Global, bytes: &[u8], short: &[Token]) -> Result<bool, AllocError>
    requires { StandFor bytes.now short.now }
    ensures { IfOk result (λ may. MatchBool may (MayGoOn bytes.now) (MayGoOn bytes.now → ⊥)) }
{
    match begin_file(alloc, bytes, short, LEVELS)? {
        Beginning::MayGoOn => Ok(true),
        Beginning::Stops => Ok(false),
        Beginning::TooDeep => Ok(false),
    }
}

/// Whether bytes are a file or begin one.
#[tactic(auto, using(crate::proofs::Trials::fits, crate::proofs::Trials::is_file, crate::proofs::Trials::begins))]
pub(crate) fn may_go_on(alloc: Global, bytes: &[u8]) -> Result<bool, AllocError>
    ensures { IfOk result (λ may. MatchBool may (MayGoOn bytes.now) (MayGoOn bytes.now → ⊥)) }
{
    let tokens = match lex(alloc, bytes) {
        Ok(tokens) => tokens,
        Err(error) => {
            unless_memory(error)?;
            return Ok(false);
        }
    };
    match parse(alloc, bytes, &tokens) {
        Ok(_) => Ok(true),
        Err(ParseError::Syntax(at)) => {
            if at as usize == bytes.len() {
                return Ok(true);
            }
            Ok(false)
        }
        Err(ParseError::TooDeep(_)) => Ok(false),
        Err(ParseError::Memory(cause)) => Err(cause),
    }
}

/// Want of memory says nothing of the bytes.
pub(crate) fn unless_memory(error: LexError) -> Result<(), AllocError>
    ensures { IfOk result (λ done. IsNoMemory error) }
{
    match error {
        LexError::TooLong => Ok(()),
        LexError::BadByte(_) => Ok(()),
        LexError::OpenString(_) => Ok(()),
        LexError::OpenComment(_) => Ok(()),
        LexError::BadNumber(_) => Ok(()),
        LexError::Memory(cause) => Err(cause),
    }
}
