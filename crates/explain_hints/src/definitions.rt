//! The definitions before the last one, which may be left out of the tokens of a text.

ghost use Rattle.std.specs.Prelude.{◌≡◌, ◌<◌, ◌≤◌, true, length, take, drop, IfOk, IfSome};
ghost use Rattle.jolie_tokens.specs.Texts.{longest, IsRead};
ghost use Rattle.jolie_parse.specs.declared.class.Class.TheVariants as class;
ghost use Rattle.jolie_parse.specs.Classes.{class_of};
ghost use Rattle.jolie_parse.specs.Words.{word_of};
ghost use Rattle.explain_hints.specs.Short.{AreWhole, BeginsDefinition, HaveTokens, IsParted, MayGoOnAt};

use crate::trial::unless_memory;
use explain_places::{before, behind};
use jolie_parse::{ParseError, parse};
use jolie_tokens::{Sign, Token, TokenKind, Tokens, lex};
use std::alloc::{AllocError, Global};

/// Where the tokens of a text may begin: at its last definition, where that begins a line and those before it are
/// whole.
#[tactic(auto, using(crate::proofs::Whole::last_begins, crate::proofs::Whole::nothing_left_out))]
pub(crate) fn last_definition(
    alloc: Global,
    text: &[u8],
    tokens: &[Token],
) -> Result<usize, AllocError>
    requires lexed { IsRead text.now tokens.now }
    requires some { 0 < length tokens.now }
    ensures { IfOk result (λ begun. MayGoOnAt text.now tokens.now 0 begun) }
{
    let feed = feed_before(text, last_word(text, tokens));
    let Some(count) = whole_before(alloc, text, feed)? else {
        return Ok(0);
    };
    if tokens.len() <= count || !begins_definition(text, &tokens[count]) {
        return Ok(0);
    }
    Ok(count)
}

/// The place of the last word outside of brackets with which a definition may begin, or 0. Nothing is promised of it:
/// who uses it looks at what stands there.
fn last_word(text: &[u8], tokens: &[Token]) -> usize {
    let mut last = 0;
    let mut open = 0;
    for token in tokens {
        if let TokenKind::Sign(sign) = &token.kind {
            open = open_after(*sign, open);
        }
        if open == 0 && begins_definition(text, token) {
            last = token.at as usize;
        }
    }
    last
}

/// How many brackets are open after a sign.
fn open_after(sign: Sign, open: u32) -> u32 {
    match sign {
        Sign::OpenBrace | Sign::OpenParen | Sign::OpenBracket => open.saturating_add(1),
        Sign::CloseBrace | Sign::CloseParen | Sign::CloseBracket => open.saturating_sub(1),
        _ => open,
    }
}

/// The place of the last line feed before a place, or 0. Nothing is promised of it, as of `last_word`.
fn feed_before(text: &[u8], at: usize) -> usize {
    let mut end = at.min(text.len());
    while end > 0 && text[end - 1] != b'\n' {
        end -= 1;
    }
    end.saturating_sub(1)
}

/// How many tokens stand before a line feed, where they are whole definitions.
#[tactic(auto, using(crate::proofs::Whole::parted))]
fn whole_before(alloc: Global, text: &[u8], feed: usize) -> Result<Option<usize>, AllocError>
    ensures { IfOk result (λ found. IfSome found (λ count. IsParted text.now count)) }
{
    if feed >= text.len() || text[feed] != b'\n' {
        return Ok(None);
    }
    if !has_tokens(alloc, behind(text, feed + 1))? {
        return Ok(None);
    }
    definitions_in(alloc, before(text, feed))
}

/// Whether bytes have tokens.
#[tactic(auto, using(crate::proofs::Whole::have_tokens))]
fn has_tokens(alloc: Global, bytes: &[u8]) -> Result<bool, AllocError>
    ensures { IfOk result (λ found. found ≡ true → HaveTokens bytes.now) }
{
    match lex(alloc, bytes) {
        Ok(_) => Ok(true),
        Err(error) => {
            unless_memory(error)?;
            Ok(false)
        }
    }
}

/// How many tokens bytes have, where they are whole definitions.
fn definitions_in(alloc: Global, bytes: &[u8]) -> Result<Option<usize>, AllocError>
    ensures { IfOk result (λ found. IfSome found (λ count. AreWhole bytes.now count)) }
{
    match lex(alloc, bytes) {
        Ok(tokens) => whole(alloc, bytes, &tokens),
        Err(error) => {
            unless_memory(error)?;
            Ok(None)
        }
    }
}

/// How many tokens these are, where they are whole definitions.
#[tactic(auto, using(crate::proofs::Whole::are_whole))]
fn whole(alloc: Global, bytes: &[u8], tokens: &Tokens) -> Result<Option<usize>, AllocError>
    requires fits { length bytes.now ≤ longest }
    requires lexed { IsRead bytes.now tokens.now }
    ensures { IfOk result (λ found. IfSome found (λ count. AreWhole bytes.now count)) }
{
    match parse(alloc, bytes, tokens) {
        Ok(_) => Ok(Some(tokens.as_slice().len())),
        Err(ParseError::Syntax(_)) => Ok(None),
        Err(ParseError::TooDeep(_)) => Ok(None),
        Err(ParseError::Memory(cause)) => Err(cause),
    }
}

/// Whether a token of a text is a word with which a definition begins.
fn begins_definition(text: &[u8], token: &Token) -> bool
    ensures { result ≡ true
        → BeginsDefinition (class_of token.now.kind (take token.now.len (drop token.now.at text.now))) }
{
    match &token.kind {
        TokenKind::Word => {
            is_definition_word(before(behind(text, token.at as usize), token.len as usize))
        }
        _ => false,
    }
}

/// Whether a definition begins with a word of this spelling.
#[tactic(auto, using(crate::proofs::Whole::of_type, crate::proofs::Whole::of_interface, crate::proofs::Whole::of_service))]
fn is_definition_word(spelling: &[u8]) -> bool
    ensures { result ≡ true → BeginsDefinition (class.Word (word_of spelling.now)) }
{
    if is_word(spelling, "type") {
        return true;
    }
    if is_word(spelling, "interface") {
        return true;
    }
    is_word(spelling, "service")
}

/// Whether a spelling is that of a word.
fn is_word(spelling: &[u8], word: &str) -> bool
    ensures { result ≡ true → spelling.now ≡ word.now }
{
    spelling == word.as_bytes()
}
