ghost use Rattle.std.specs.Prelude.{◌≡◌, ◌≤◌, length, IfSome};
ghost use Rattle.std.specs.Int.{is_in_range};
ghost use Rattle.jolie_tokens.specs.Fronts as spec;

use std::str::from_utf8;

fn is_between(least: u8, byte: u8, most: u8) -> bool
    ensures { result ≡ is_in_range least most byte }
{
    least <= byte && byte <= most
}

/// Whether a character of two to four bytes begins with the byte.
fn is_lead(byte: u8) -> bool
    ensures { result ≡ spec.is_lead byte }
{
    is_between(0xC2, byte, 0xF4)
}

/// Whether a byte may be the second of a character after its first.
fn is_second(lead: u8, byte: u8) -> bool
    ensures { result ≡ spec.is_second lead byte }
{
    match lead {
        0xE0 => is_between(0xA0, byte, 0xBF),
        0xED => is_between(0x80, byte, 0x9F),
        0xF0 => is_between(0x90, byte, 0xBF),
        0xF4 => is_between(0x80, byte, 0x8F),
        _ => is_between(0x80, byte, 0xBF),
    }
}

/// How many bytes of a character stand at the front of bytes that begin with no whole one.
fn begun_len(bytes: &[u8]) -> usize
    ensures { result ≡ spec.begun_len bytes.now }
{
    match bytes {
        [lead, after @ ..] if is_lead(*lead) => 1 + begun_second(*lead, after),
        _ => 0,
    }
}

/// The same after the character's first byte.
fn begun_second(lead: u8, bytes: &[u8]) -> usize
    ensures value { result ≡ spec.begun_second lead bytes.now }
    ensures short { result ≤ 2 }
{
    match bytes {
        [second, after @ ..] if is_second(lead, *second) => 1 + begun_third(after),
        _ => 0,
    }
}

/// The same after its second byte.
fn begun_third(bytes: &[u8]) -> usize
    ensures value { result ≡ spec.begun_third bytes.now }
    ensures short { result ≤ 1 }
{
    match bytes {
        [third, ..] if is_between(0x80, *third, 0xBF) => 1,
        _ => 0,
    }
}

/// The place where bytes stop beginning UTF-8, if they are none.
#[tactic(auto, using(crate::proofs::Encoding::utf8_stop_within))]
pub fn utf8_stop(bytes: &[u8]) -> Option<usize>
    ensures value { result ≡ spec.utf8_stop bytes.now }
    ensures within { IfSome result (λ k. k ≤ length bytes.now) }
{
    match from_utf8(bytes) {
        Ok(_) => None,
        Err(error) => {
            let valid = error.valid_up_to();
            Some(valid + begun_len(&bytes[valid..]))
        }
    }
}
