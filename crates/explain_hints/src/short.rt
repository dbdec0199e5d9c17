//! Few tokens that stand for those of many bytes: definitions and statements that may be left out are.

ghost use Rattle.std.specs.Prelude.{◌≡◌, ◌≤◌, ◌<◌, true, ◌∷◌, ◌++◌, length, IfOk, IfSome};
ghost use Rattle.std.specs.List.{All};
ghost use Rattle.jolie_tokens.specs.Texts.{longest, IsRead};
ghost use Rattle.jolie_parse.specs.Classes.{spelled, StandsIn};
ghost use Rattle.jolie_parse.specs.LeftOut.{IsShallow};
ghost use Rattle.explain_hints.specs.Short.{StandFor, MayGoOnAt};

use crate::copies::{joined, moved_copy};
use crate::definitions::last_definition;
use crate::semicolons::{is_semicolon, last_semicolons};
use crate::trial::unless_memory;
use jolie_parse::{Beginning, are_next_statements, begin_file};
use jolie_tokens::{Token, Tokens, lex};
use std::alloc::{AllocError, Global};

/// How many levels what is left out may have, and how many what stands before it: half of those of a file.
const LEVELS: u32 = 32;

/// How many bytes a text has at most.
const LONGEST: usize = 1_048_576;

/// Tokens that stand for those of bytes, where some are found.
pub(crate) fn short_of(alloc: Global, bytes: &[u8]) -> Result<Option<Tokens>, AllocError>
    ensures { IfOk result (λ short. IfSome short (λ tokens. StandFor bytes.now tokens)) }
{
    match lex(alloc, bytes) {
        Ok(tokens) => shortened(alloc, bytes, tokens.as_slice()),
        Err(error) => {
            unless_memory(error)?;
            Ok(None)
        }
    }
}

/// Tokens that stand for these, unless they nest too deep.
fn shortened(alloc: Global, text: &[u8], tokens: &[Token]) -> Result<Option<Tokens>, AllocError>
    requires fits { length text.now ≤ longest }
    requires lexed { IsRead text.now tokens.now }
    ensures { IfOk result (λ short. IfSome short (λ tokens. StandFor text.now tokens)) }
{
    if tokens.is_empty() || !is_shallow(alloc, text, tokens)? {
        return Ok(None);
    }
    let begun = last_definition(alloc, text, tokens)?;
    Ok(Some(without_statements(alloc, text, tokens, begun)?))
}

/// Whether tokens of a text nest in so few levels that statements of them may be left out.
fn is_shallow(alloc: Global, text: &[u8], tokens: &[Token]) -> Result<bool, AllocError>
    requires { All (StandsIn text.now) tokens.now }
    ensures { IfOk result (λ shallow. shallow ≡ true → IsShallow 32 (spelled text.now tokens.now)) }
{
    match begin_file(alloc, text, tokens, LEVELS)? {
        Beginning::MayGoOn => Ok(true),
        Beginning::Stops => Ok(true),
        Beginning::TooDeep => Ok(false),
    }
}

/// The tokens of a text without what may be left out: the definitions before this place, and statements.
#[tactic(auto, using(crate::proofs::FewTokens::next_fits))]
fn without_statements(
    alloc: Global,
    text: &[u8],
    tokens: &[Token],
    begun: usize,
) -> Result<Tokens, AllocError>
    requires fits { length text.now ≤ longest }
    requires lexed { IsRead text.now tokens.now }
    requires stand { All (StandsIn text.now) tokens.now }
    requires shallow { IsShallow 32 (spelled text.now tokens.now) }
    requires begun { MayGoOnAt text.now tokens.now 0 begun }
    ensures { IfOk result (λ short. StandFor text.now short) }
{
    let lasts = last_semicolons(alloc, tokens)?;
    let mut short = Tokens::new(alloc);
    let mut at = 0;
    while at < tokens.len() {
        let next = next_kept(alloc, text, tokens, at, begun, lasts.as_slice())?;
        short.push(moved_copy(&tokens[next], 0)?)?;
        at = next + 1;
    }
    Ok(short)
}

/// Where tokens may go on from a place on: from the first one where they begin, and else after the statements of its
/// level, if they may be left out.
#[tactic(auto, using(crate::proofs::FewTokens::begins_there, crate::proofs::FewTokens::stays, crate::proofs::FewTokens::behind_statements))]
fn next_kept(
    alloc: Global,
    text: &[u8],
    tokens: &[Token],
    at: usize,
    begun: usize,
    lasts: &[usize],
) -> Result<usize, AllocError>
    requires stand { All (StandsIn text.now) tokens.now }
    requires within { at < length tokens.now }
    requires begun { MayGoOnAt text.now tokens.now 0 begun }
    ensures { IfOk result (λ next. MayGoOnAt text.now tokens.now at next) }
{
    if at == 0 {
        return Ok(begun);
    }
    let Some(last) = lasts.get(at) else {
        return Ok(at);
    };
    let next = *last;
    if next <= at || tokens.len() <= next || !is_semicolon(&tokens[next]) {
        return Ok(at);
    }
    if !are_next_statements(alloc, text, &tokens[at..next], LEVELS)? {
        return Ok(at);
    }
    Ok(next)
}

/// Tokens that stand for those of bytes with a sample after them, where some are found; these stand for those of the
/// bytes alone.
pub(crate) fn short_with(
    alloc: Global,
    bytes: &[u8],
    short: &[Token],
    sample: &str,
) -> Result<Option<Tokens>, AllocError>
    requires { StandFor bytes.now short.now }
    ensures { IfOk result (λ found. IfSome found (λ tokens. StandFor (bytes.now ++ 10 ∷ sample.now) tokens)) }
{
    if LONGEST <= bytes.len() || LONGEST - bytes.len() <= sample.len() {
        return Ok(None);
    }
    match lex(alloc, sample.as_bytes()) {
        Ok(tokens) => Ok(Some(joined(alloc, short, tokens.as_slice(), bytes.len() as u32 + 1)?)),
        Err(error) => {
            unless_memory(error)?;
            Ok(None)
        }
    }
}
