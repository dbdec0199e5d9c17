ghost use Rattle.std.specs.Prelude.{◌≡◌, ◌≤◌, ◌+◌, length, IfSome, MatchOption};
ghost use Rattle.jolie_tokens.specs.Fronts as spec;
ghost use Rattle.jolie_tokens.specs.Texts.{longest};

use crate::lex_error::LexError;
use crate::lexeme::Lexeme;
use crate::utf8::utf8_stop;
use crate::word::line_len;

/// Where the `*/` stands that closes a comment with this inside.
#[tactic(auto, unfolding(crate::specs::Fronts::comment_end))]
fn comment_end(after: &[u8]) -> Option<usize>
    ensures value { result ≡ spec.comment_end after.now }
    ensures within { IfSome result (λ n. n + 2 ≤ length after.now) }
{
    let mut starred = false;
    for (i, byte) in after.iter().enumerate() {
        if starred && *byte == b'/' {
            return Some(i - 1);
        }
        starred = *byte == b'*';
    }
    None
}

/// A comment whose inside is these bytes, after its two first, and which has so many bytes.
fn checked(inside: &[u8], len: u32, at: u32) -> Result<Lexeme, LexError>
    requires { at + length inside.now + 2 ≤ longest }
    ensures { MatchOption (spec.utf8_stop inside.now) (result ≡ Ok (record { kind = None; len = len }))
        (λ k. result ≡ Err (LexError.BadByte (at + 2 + k))) }
{
    match utf8_stop(inside) {
        Some(stop) => Err(LexError::BadByte(at + 2 + stop as u32)),
        None => Ok(Lexeme { kind: None, len }),
    }
}

/// The comment to the line's end whose `//` stands before these bytes.
#[tactic(auto, unfolding(crate::specs::Fronts::line_comment))]
pub fn line_comment(after: &[u8], at: u32) -> Result<Lexeme, LexError>
    requires { at + length after.now + 2 ≤ longest }
    ensures { result ≡ spec.shown (spec.line_comment after.now at) }
{
    let inside = &after[..line_len(after)];
    checked(inside, inside.len() as u32 + 2, at)
}

/// The comment whose `/*` stands before these bytes.
#[tactic(auto, unfolding(crate::specs::Fronts::block_comment))]
pub fn block_comment(after: &[u8], at: u32) -> Result<Lexeme, LexError>
    requires { at + length after.now + 2 ≤ longest }
    ensures { result ≡ spec.shown (spec.block_comment after.now at) }
{
    let Some(len) = comment_end(after) else {
        return Err(LexError::OpenComment(at));
    };
    checked(&after[..len], len as u32 + 4, at)
}
