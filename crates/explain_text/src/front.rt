//! What stands at the front of bytes.

ghost use Rattle.std.specs.Prelude.{◌≡◌};
ghost use Rattle.jolie_tokens.specs.Bytes as bytes;
ghost use Rattle.explain_text.specs.Words as spec;

use explain_places::behind;

/// Whether the word stands at the front, and no longer one.
pub(crate) fn begins_with(word: &str, text: &[u8]) -> bool
    ensures { result ≡ spec.begins_with word.now text.now }
{
    text.starts_with(word.as_bytes()) && !continues_word(behind(text, word.len()))
}

/// Whether a letter, a digit or `_` stands at the front.
fn continues_word(text: &[u8]) -> bool
    ensures { result ≡ bytes.begins bytes.is_word_byte text.now }
{
    match text.first() {
        Some(byte) => is_word_byte(*byte),
        None => false,
    }
}

/// Whether a letter or `_` stands at the front.
pub(crate) fn begins_word(text: &[u8]) -> bool
    ensures { result ≡ bytes.begins bytes.is_letter text.now }
{
    match text.first() {
        Some(byte) => is_letter(*byte),
        None => false,
    }
}

/// Whether a byte is a letter, a digit or `_`.
fn is_word_byte(byte: u8) -> bool
    ensures { result ≡ bytes.is_word_byte byte }
{
    is_letter(byte) || byte.is_ascii_digit()
}

/// Whether a byte is a letter or `_`.
fn is_letter(byte: u8) -> bool
    ensures { result ≡ bytes.is_letter byte }
{
    byte.is_ascii_alphabetic() || byte == b'_'
}
