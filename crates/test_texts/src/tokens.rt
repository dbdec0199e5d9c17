//! Tables of texts with the tokens that they fall into, found by hand from the rules of the language, and of words that
//! are reserved or free.
use jolie_tokens::{Token, TokenKind, is_reserved, lex};
use std::alloc::{AllocError, Global};
use test_rows::{Row, TableError};

/// What the row expects.
pub fn expected(alloc: Global, row: &Row<'_>) -> Result<String, TableError> {
    row.text(alloc, if row.has("word") { "kind" } else { "tokens" })
}

/// What comes of the row.
pub fn given(alloc: Global, row: &Row<'_>) -> Result<String, TableError> {
    if row.has("word") {
        return kind(alloc, row);
    }
    let text = text_of(alloc, row)?;
    Ok(shown(alloc, text.as_slice())?)
}

/// Whether the row's word is reserved or free.
fn kind(alloc: Global, row: &Row<'_>) -> Result<String, TableError> {
    let word = row.text(alloc, "word")?;
    let kind = if is_reserved(word.as_str()) {
        "reserved"
    } else {
        "free"
    };
    Ok(String::from_str(alloc, kind)?)
}

/// The row's text, behind as many blanks as it has in front.
fn text_of(alloc: Global, row: &Row<'_>) -> Result<Vec<u8>, TableError> {
    let bytes = row.bytes(alloc, "text")?;
    if !row.has("blanks") {
        return Ok(bytes);
    }
    let blanks = row.number(alloc, "blanks")?;
    let mut text = Vec::new(alloc);
    for _ in 0..blanks {
        text.push(b' ')?;
    }
    text.extend_from_slice(bytes.as_slice())?;
    Ok(text)
}

/// A token with its place and its length, as `word@0+1`.
fn shown_token(alloc: Global, token: &Token) -> Result<String, AllocError> {
    let at = token.at;
    let len = token.len;
    match &token.kind {
        TokenKind::Word => format!(in alloc; "word@{at}+{len}"),
        TokenKind::Int(n) => format!(in alloc; "{n}@{at}+{len}"),
        TokenKind::Long(n) => format!(in alloc; "{n}L@{at}+{len}"),
        TokenKind::Str(text) => {
            let text = text.as_str();
            format!(in alloc; "{text:?}@{at}+{len}")
        }
        TokenKind::Sign(sign) => {
            let sign = sign.as_str();
            format!(in alloc; "{sign}@{at}+{len}")
        }
    }
}

/// The tokens of a text in a row, or its refusal.
fn shown(alloc: Global, text: &[u8]) -> Result<String, AllocError> {
    match lex(alloc, text) {
        Ok(tokens) => {
            let mut all = String::new(alloc);
            for token in tokens.as_slice() {
                all.push_str(shown_token(alloc, token)?.as_str())?;
                all.push(' ')?;
            }
            Ok(all)
        }
        Err(error) => format!(in alloc; "{error}"),
    }
}
