ghost use Rattle.std.specs.Prelude.{◌≡◌, ◌≤◌, length};
ghost use Rattle.std.specs.List.{prefix_len};
ghost use Rattle.jolie_tokens.specs.Bytes as spec;

use crate::bytes::{is_digit, is_word_byte};

/// How many bytes of a word stand at the front.
#[tactic(auto, using(crate::proofs::Runs::run_is))]
pub fn word_len(text: &[u8]) -> usize
    ensures value { result ≡ prefix_len spec.is_word_byte text.now }
    ensures within { result ≤ length text.now }
{
    for (i, byte) in text.iter().enumerate() {
        if !is_word_byte(*byte) {
            return i;
        }
    }
    text.len()
}

/// How many digits stand at the front.
#[tactic(auto, using(crate::proofs::Runs::run_is))]
pub fn digits_len(text: &[u8]) -> usize
    ensures value { result ≡ prefix_len spec.is_digit text.now }
    ensures within { result ≤ length text.now }
{
    for (i, byte) in text.iter().enumerate() {
        if !is_digit(*byte) {
            return i;
        }
    }
    text.len()
}

/// How many bytes stand before the first line feed.
#[tactic(auto, using(crate::proofs::Runs::run_is))]
pub fn line_len(text: &[u8]) -> usize
    ensures value { result ≡ prefix_len spec.is_in_line text.now }
    ensures within { result ≤ length text.now }
{
    for (i, byte) in text.iter().enumerate() {
        if *byte == b'\n' {
            return i;
        }
    }
    text.len()
}
