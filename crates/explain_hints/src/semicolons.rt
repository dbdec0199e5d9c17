//! The semicolons of tokens, level by level of nesting. Nothing is promised of where they are said to stand: who uses
//! it looks at what stands there.

ghost use Rattle.std.specs.Prelude.{◌≡◌, true};
ghost use Rattle.jolie_tokens.specs.declared.sign.Sign.TheVariants.{Semicolon};
ghost use Rattle.jolie_tokens.specs.declared.token.TokenKind.TheVariants.{Sign as IsSign};

use jolie_tokens::{Sign, Token, TokenKind};
use std::alloc::{AllocError, Global};

/// Whether a token is a `;`.
pub(crate) fn is_semicolon(token: &Token) -> bool
    ensures { result ≡ true → token.now.kind ≡ IsSign Semicolon }
{
    match &token.kind {
        TokenKind::Sign(Sign::Semicolon) => true,
        _ => false,
    }
}

/// The levels that are open after tokens.
#[derive(Drop)]
struct Levels {
    /// For each of them, the place of its first `;` behind the last `|`.
    firsts: Vec<Option<usize>>,
    /// For each token that is such a `;`, the place of the last one that follows it.
    lasts: Vec<usize>,
}

impl Levels {
    /// A sign stands at a place.
    fn pass(&mut self, sign: Sign, place: usize) -> Result<(), AllocError> {
        match sign {
            Sign::OpenBrace | Sign::OpenParen | Sign::OpenBracket => self.firsts.push(None)?,
            Sign::CloseBrace | Sign::CloseParen | Sign::CloseBracket => {
                let _ = self.firsts.pop();
            }
            Sign::Bar => self.part(),
            Sign::Semicolon => self.end_statement(place),
            _ => {}
        }
        Ok(())
    }

    /// A `|` stands in the innermost level.
    fn part(&mut self) {
        if let Some(first) = self.firsts.last_mut() {
            *first = None;
        }
    }

    /// A `;` stands in the innermost level.
    fn end_statement(&mut self, place: usize) {
        let Some(first) = self.firsts.last_mut() else {
            return;
        };
        match *first {
            Some(first) => {
                if let Some(last) = self.lasts.get_mut(first) {
                    *last = place;
                }
            }
            None => *first = Some(place),
        }
    }
}

/// For each token, if it is the first `;` of its level, where the last one stands.
pub(crate) fn last_semicolons(alloc: Global, tokens: &[Token]) -> Result<Vec<usize>, AllocError> {
    let mut levels = Levels {
        firsts: Vec::new(alloc),
        lasts: Vec::new(alloc),
    };
    for (place, token) in tokens.iter().enumerate() {
        levels.lasts.push(place)?;
        if let TokenKind::Sign(sign) = &token.kind {
            levels.pass(*sign, place)?;
        }
    }
    let Levels { lasts, .. } = levels;
    Ok(lasts)
}
