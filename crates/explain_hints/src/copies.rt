//! Copies of tokens.

ghost use Rattle.std.specs.Prelude.{◌≡◌, ◌≤◌, ◌+◌, ◌++◌, map, IfOk};
ghost use Rattle.std.specs.List.{All};
ghost use Rattle.jolie_tokens.specs.Texts.{longest};
ghost use Rattle.explain_hints.specs.Short.{moved};

use jolie_tokens::{Token, TokenKind, Tokens};
use std::alloc::{AllocError, Global};

/// A copy of what a token is.
fn copied_kind(kind: &TokenKind) -> Result<TokenKind, AllocError>
    ensures { IfOk result (λ copy. copy ≡ kind.now) }
{
    match kind {
        TokenKind::Word => Ok(TokenKind::Word),
        TokenKind::Int(value) => Ok(TokenKind::Int(*value)),
        TokenKind::Long(value) => Ok(TokenKind::Long(*value)),
        TokenKind::Str(text) => Ok(TokenKind::Str(text.copied()?)),
        TokenKind::Sign(sign) => Ok(TokenKind::Sign(*sign)),
    }
}

/// A copy of a token, so many bytes on.
pub(crate) fn moved_copy(token: &Token, by: u32) -> Result<Token, AllocError>
    requires { token.now.at + by ≤ longest }
    ensures { IfOk result (λ copy. copy ≡ moved by token.now) }
{
    Ok(Token {
        kind: copied_kind(&token.kind)?,
        at: token.at + by,
        len: token.len,
    })
}

/// Copies of tokens, so many bytes on.
#[tactic(auto, using(crate::proofs::FewTokens::moved_nothing, crate::proofs::FewTokens::place_fits, crate::proofs::FewTokens::moved_more, crate::proofs::FewTokens::moved_all))]
fn moved_copies(alloc: Global, tokens: &[Token], by: u32) -> Result<Tokens, AllocError>
    requires { All (λ t. t.at + by ≤ longest) tokens.now }
    ensures { IfOk result (λ copies. copies ≡ map (moved by) tokens.now) }
{
    let mut copies = Tokens::new(alloc);
    for token in tokens {
        copies.push(moved_copy(token, by)?)?;
    }
    Ok(copies)
}

/// Copies of tokens, and after them copies of others so many bytes on.
pub(crate) fn joined(
    alloc: Global,
    tokens: &[Token],
    more: &[Token],
    by: u32,
) -> Result<Tokens, AllocError>
    requires here { All (λ t. t.at + 0 ≤ longest) tokens.now }
    requires on { All (λ t. t.at + by ≤ longest) more.now }
    ensures { IfOk result (λ all. all ≡ tokens.now ++ map (moved by) more.now) }
{
    let mut all = moved_copies(alloc, tokens, 0)?;
    all.append(moved_copies(alloc, more, by)?)?;
    Ok(all)
}
