ghost use Rattle.std.specs.Prelude.{◌≡◌, ◌≤◌, ◌^◌, ◌-◌, min, length};
ghost use Rattle.std.specs.List.{AllPass};
ghost use Rattle.std.specs.Str.Parse.{digits_value};
ghost use Rattle.jolie_tokens.specs.Bytes.{begins, is_digit, is_letter, is_word_byte};
ghost use Rattle.jolie_tokens.specs.Numbers.{begins_fraction, closes_long};
ghost use Rattle.jolie_tokens.specs.Texts.{longest};
ghost use Rattle.jolie_tokens.specs.Fronts as front;

use crate::bytes::{is_digit, is_letter, is_word_byte};
use crate::lex_error::LexError;
use crate::lexeme::Lexeme;
use crate::token::TokenKind;
use crate::word::digits_len;

const LARGEST_INT: u64 = 2_147_483_647;

const LARGEST_LONG: u64 = 9_223_372_036_854_775_807;

/// The value of digits, cut at the largest number of 64 bits.
fn value_of(digits: &[u8]) -> u64
    requires { AllPass is_digit digits.now }
    ensures { result ≡ min (digits_value 10 digits.now) (2 ^ 64 - 1) }
{
    let mut value: u64 = 0;
    for digit in digits {
        value = value
            .saturating_mul(10)
            .saturating_add(u64::from(digit.saturating_sub(b'0')));
    }
    value
}

fn begins_word_byte(text: &[u8]) -> bool
    ensures { result ≡ begins is_word_byte text.now }
{
    match text {
        [byte, ..] => is_word_byte(*byte),
        [] => false,
    }
}

fn begins_letter(text: &[u8]) -> bool
    ensures { result ≡ begins is_letter text.now }
{
    match text {
        [byte, ..] => is_letter(*byte),
        [] => false,
    }
}

/// Whether a dot and a digit stand at the front.
fn begins_fraction(text: &[u8]) -> bool
    ensures { result ≡ begins_fraction text.now }
{
    match text {
        [dot, byte, ..] => *dot == b'.' && is_digit(*byte),
        _ => false,
    }
}

/// Whether the `L` that closes a long stands at the front.
fn closes_long(text: &[u8]) -> bool
    ensures { result ≡ closes_long text.now }
{
    match text {
        [letter, after @ ..] => *letter == b'L' && !begins_word_byte(after),
        [] => false,
    }
}

/// The number at the front of a text that begins with a digit.
#[tactic(auto, using(crate::proofs::Runs::run_passes, crate::proofs::Numbers::bad_long, crate::proofs::Numbers::bad_int), unfolding(crate::specs::Fronts::number))]
pub fn number(text: &[u8], at: u32) -> Result<Lexeme, LexError>
    requires { length text.now ≤ longest }
    ensures { result ≡ front.shown (front.number text.now at) }
{
    let (digits, rest) = text.split_at(digits_len(text));
    let value = value_of(digits);
    let len = digits.len() as u32;
    if closes_long(rest) {
        if value > LARGEST_LONG {
            return Err(LexError::BadNumber(at));
        }
        return Ok(Lexeme {
            kind: Some(TokenKind::Long(value as i64)),
            len: len + 1,
        });
    }
    if begins_letter(rest) || begins_fraction(rest) || value > LARGEST_INT {
        return Err(LexError::BadNumber(at));
    }
    Ok(Lexeme {
        kind: Some(TokenKind::Int(value as i32)),
        len,
    })
}
