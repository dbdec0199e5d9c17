ghost use Rattle.std.specs.Prelude.{◌≡◌, ◌≤◌, ◌<◌, ◌+◌, List, length, drop, MatchResult, IfOk, IfErr, IsErrOf, ◌↔◌};
ghost use Rattle.jolie_tokens.specs.Fronts as spec;
ghost use Rattle.jolie_tokens.specs.Texts.{longest, IsRead, IsRefused};
ghost use Rattle.jolie_tokens.specs.Outcomes.{IsRefusedOrMemory, IsCause, UnlessMemory};

use crate::bytes::{is_blank, is_digit, is_letter};
use crate::comment::{block_comment, line_comment};
use crate::lex_error::LexError;
use crate::lexeme::Lexeme;
use crate::number::number;
use crate::sign::sign_at;
use crate::string::string;
use crate::token::{Token, TokenKind, Tokens};
use crate::word::word_len;
use std::alloc::Global;

const LONGEST: usize = 1_048_576;

/// A text behind so many bytes.
fn behind(text: &[u8], len: usize) -> &[u8]
    requires { len ≤ length text.now }
    ensures { result.now ≡ drop len text.now }
{
    &text[len..]
}

/// The sign at the front of a text.
fn sign(text: &[u8], at: u32) -> Result<Lexeme, LexError>
    ensures { result ≡ spec.shown (spec.sign text.now at) }
{
    match sign_at(text) {
        Some(sign) => Ok(Lexeme {
            kind: Some(TokenKind::Sign(sign)),
            len: sign.as_str().len() as u32,
        }),
        None => Err(LexError::BadByte(at)),
    }
}

/// What stands at the front of a text that is not empty.
fn front(alloc: Global, text: &[u8], at: u32) -> Result<Lexeme, LexError>
    requires some { 0 < length text.now }
    requires fits { at + length text.now ≤ longest }
    ensures { spec.Gives (spec.front text.now at) result }
{
    match text {
        [byte, ..] if is_blank(*byte) => Ok(Lexeme { kind: None, len: 1 }),
        [byte, ..] if is_letter(*byte) => Ok(Lexeme {
            kind: Some(TokenKind::Word),
            len: word_len(text) as u32,
        }),
        [byte, ..] if is_digit(*byte) => number(text, at),
        [b'"', after @ ..] => string(alloc, after, at),
        [b'/', b'/', after @ ..] => line_comment(after, at),
        [b'/', b'*', after @ ..] => block_comment(after, at),
        _ => sign(text, at),
    }
}

/// The tokens of a text that is not too long.
fn tokens_of(alloc: Global, text: &[u8]) -> Result<Tokens, LexError>
    requires { length text.now ≤ longest }
    ensures { MatchResult result (IsRead text.now) (λ e. IsRefusedOrMemory text.now e) }
{
    let mut tokens = Tokens::new(alloc);
    let mut rest = text;
    let mut at: u32 = 0;
    while !rest.is_empty() {
        let Lexeme { kind, len } = front(alloc, rest, at)?;
        if let Some(kind) = kind {
            tokens.push(Token { kind, at, len })?;
        }
        rest = behind(rest, len as usize);
        at += len;
    }
    Ok(tokens)
}

/// The tokens of a text, or the refusal that it has.
pub fn lex(alloc: Global, text: &[u8]) -> Result<Tokens, LexError>
    // The tokens are those of the text's reading in pieces.
    ensures ok { IfOk result (λ tokens. IsRead text.now tokens) }
    // No refusal comes before that of a text that is too long, and no other text has it.
    ensures too_long { IsErrOf result LexError.TooLong ↔ longest < length text.now }
    // Any other refusal is the text's own, at its place.
    ensures refused { IfErr result (λ e. IsCause text.now e) }
    // A text that is read gives its tokens and a text that is refused its refusal, unless memory runs out.
    ensures read { (tokens : List Token) → length text.now ≤ longest → IsRead text.now tokens
        → UnlessMemory result (Ok tokens) }
    ensures exact { (e : LexError) → length text.now ≤ longest → IsRefused text.now e → UnlessMemory result (Err e) }
{
    if text.len() > LONGEST {
        return Err(LexError::TooLong);
    }
    tokens_of(alloc, text)
}
