ghost use Rattle.std.specs.Prelude.{◌≡◌, ◌≤◌, ◌<◌, ◌+◌, length, IfSome, IfOk, IsUtf8};
ghost use Rattle.jolie_tokens.specs.Fronts as spec;
ghost use Rattle.jolie_tokens.specs.Texts.{longest};

use crate::bytes::{is_escape, meant_byte};
use crate::lex_error::LexError;
use crate::lexeme::Lexeme;
use crate::token::TokenKind;
use crate::utf8::utf8_stop;
use jolie_trees::Text;
use std::alloc::{AllocError, Global};

/// Where the quote stands that closes a string, in what follows its first quote.
#[tactic(auto, unfolding(crate::specs::Fronts::string_end))]
fn string_end(after: &[u8]) -> Option<usize>
    ensures value { result ≡ spec.string_end after.now }
    ensures within { IfSome result (λ n. n < length after.now) }
{
    let mut escaped = false;
    for (i, byte) in after.iter().enumerate() {
        if escaped {
            escaped = false;
        } else if *byte == b'"' {
            return Some(i);
        } else {
            escaped = *byte == b'\\';
        }
    }
    None
}

/// The first backslash of a bad escape.
#[tactic(auto, unfolding(crate::specs::Fronts::bad_escape))]
fn bad_escape(inside: &[u8]) -> Option<usize>
    ensures value { result ≡ spec.bad_escape inside.now }
    ensures within { IfSome result (λ n. n ≤ length inside.now) }
{
    let mut escaped = false;
    for (i, byte) in inside.iter().enumerate() {
        if escaped && !is_escape(*byte) {
            return Some(i - 1);
        }
        escaped = !escaped && *byte == b'\\';
    }
    None
}

/// The lesser of two places.
fn least(a: Option<usize>, b: Option<usize>) -> Option<usize>
    ensures { result ≡ spec.least a b }
{
    match (a, b) {
        (Some(a), Some(b)) => Some(a.min(b)),
        (Some(a), None) => Some(a),
        (None, b) => b,
    }
}

/// The bytes that the inside of a string means.
#[tactic(auto, unfolding(crate::specs::Fronts::parts))]
fn meant_bytes(alloc: Global, inside: &[u8]) -> Result<Vec<u8>, AllocError>
    ensures { IfOk result (λ v. v.items ≡ spec.meant inside.now) }
{
    let mut meant = Vec::with_capacity(alloc, inside.len())?;
    let mut escaped = false;
    for byte in inside {
        if !escaped && *byte == b'\\' {
            escaped = true;
        } else {
            meant.push(if escaped { meant_byte(*byte) } else { *byte })?;
            escaped = false;
        }
    }
    Ok(meant)
}

/// The text that the inside of a string means.
fn meant_text(alloc: Global, inside: &[u8]) -> Result<Text, AllocError>
    requires { IsUtf8 (spec.meant inside.now) }
    ensures { IfOk result (λ t. t ≡ spec.meant inside.now) }
{
    let bytes = meant_bytes(alloc, inside)?;
    match String::from_utf8(bytes) {
        Ok(text) => Ok(Text::from_string(text)),
        Err(_) => unreachable!(),
    }
}

/// The string whose first quote stands before these bytes.
#[tactic(auto, unfolding(crate::specs::Fronts::string))]
pub fn string(alloc: Global, after: &[u8], at: u32) -> Result<Lexeme, LexError>
    requires { at + length after.now + 1 ≤ longest }
    ensures { spec.Gives (spec.string after.now at) result }
{
    let Some(len) = string_end(after) else {
        return Err(LexError::OpenString(at));
    };
    let inside = &after[..len];
    if let Some(fault) = least(bad_escape(inside), utf8_stop(inside)) {
        return Err(LexError::BadByte(at + 1 + fault as u32));
    }
    let text = meant_text(alloc, inside)?;
    Ok(Lexeme {
        kind: Some(TokenKind::Str(text)),
        len: len as u32 + 2,
    })
}
