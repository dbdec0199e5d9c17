//! The numbers that the command line writes.

ghost use Rattle.std.specs.Prelude.{◌≡◌, IfOk};
ghost use Rattle.main_commands.specs.Numbers as spec;
ghost use Rattle.main_commands.specs.Steps as steps;

use sqlite_items::Items;
use std::alloc::{AllocError, Global};

/// The most events that a session may have.
pub const MOST_EVENTS: u32 = 10_000;

/// The most connections that are accepted.
pub const MOST_CONNECTIONS: u32 = 65_536;

/// The most lines of a load.
pub const MOST_LINES: u32 = 600;

/// The number from the least to the most that a text writes, which the parser let through.
pub fn number_of(text: &str, least: u32, most: u32) -> u32
    ensures { result ≡ spec.number_of least most text.now }
{
    match text.parse::<u32>() {
        Ok(number) => within(number, least, most),
        Err(_) => most,
    }
}

/// The number where it is from the least to the most, else the most.
fn within(number: u32, least: u32, most: u32) -> u32
    ensures { result ≡ steps.within number least most }
{
    if number < least || number > most {
        return most;
    }
    number
}

/// The numbers that a list writes, where it is one: decimal numbers with commas between.
pub fn picks_of(alloc: Global, list: &str) -> Result<Option<Items<u32>>, AllocError>
    ensures { IfOk result (λ picks. picks ≡ spec.picks_of list.now) }
{
    let mut picks = Items::new(alloc);
    let mut begun: Option<u32> = None;
    let bytes = list.as_bytes();
    for &byte in bytes {
        if byte == b',' {
            let Some(pick) = begun else {
                return Ok(None);
            };
            picks.push(pick)?;
            begun = None;
        } else {
            let Some(number) = longer(begun.unwrap_or(0), byte) else {
                return Ok(None);
            };
            begun = Some(number);
        }
    }
    let Some(pick) = begun else {
        return Ok(None);
    };
    picks.push(pick)?;
    Ok(Some(picks))
}

/// The number with one digit more, where the byte is a digit and 32 bits hold it.
fn longer(number: u32, byte: u8) -> Option<u32>
    ensures { result ≡ steps.longer number byte }
{
    if !byte.is_ascii_digit() {
        return None;
    }
    let longer = u64::from(number) * 10 + u64::from(byte - b'0');
    if longer > u64::from(u32::MAX) {
        return None;
    }
    Some(longer as u32)
}
