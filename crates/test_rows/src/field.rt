//! The fields of a group or a row.

use crate::error::TableError;

/// A line of a value, as a field writes it.
#[derive(Clone, Copy)]
enum Part<'a> {
    Plain(&'a str),
    /// What stands between quotation marks.
    Quoted(&'a str),
}

/// What the line writes of the field.
fn line_part<'a>(line: &'a str, key: &str) -> Option<Part<'a>> {
    let rest = line.strip_prefix(key)?;
    match rest.strip_prefix(": ") {
        Some(text) => Some(Part::Plain(text)),
        None => quoted_part(rest),
    }
}

fn quoted_part(rest: &str) -> Option<Part<'_>> {
    let text = rest.strip_prefix(" = \"")?;
    Some(Part::Quoted(text.strip_suffix("\"")?))
}

/// Whether a line writes the field.
pub(crate) fn has_field(fields: &str, key: &str) -> bool {
    for line in fields.split('\n') {
        if line_part(line, key).is_some() {
            return true;
        }
    }
    false
}

/// Adds the value of the field, and says whether there is one.
pub(crate) fn add_value(fields: &str, key: &str, value: &mut Vec<u8>) -> Result<bool, TableError> {
    let mut found = false;
    for line in fields.split('\n') {
        if let Some(part) = line_part(line, key) {
            if found {
                value.push(b'\n')?;
            }
            add_part(part, value)?;
            found = true;
        }
    }
    Ok(found)
}

fn add_part(part: Part<'_>, value: &mut Vec<u8>) -> Result<(), TableError> {
    match part {
        Part::Plain(text) => {
            value.extend_from_slice(text.as_bytes())?;
            Ok(())
        }
        Part::Quoted(text) => add_unescaped(text, value),
    }
}

/// Where a reader of escapes stands.
#[derive(Clone, Copy, PartialEq, Eq)]
enum Place {
    Plain,
    /// Behind a backslash.
    Escape,
    /// Behind the `x` of a byte.
    Byte,
    /// Behind the first digit of a byte, which is this one.
    Digit(u8),
}

/// Adds what a text with escapes means.
fn add_unescaped(text: &str, value: &mut Vec<u8>) -> Result<(), TableError> {
    let mut place = Place::Plain;
    for byte in text.bytes() {
        place = step(place, byte, value)?;
    }
    if place == Place::Plain {
        Ok(())
    } else {
        Err(TableError::BadEscape)
    }
}

fn step(place: Place, byte: u8, value: &mut Vec<u8>) -> Result<Place, TableError> {
    match place {
        Place::Plain if byte == b'\\' => Ok(Place::Escape),
        Place::Escape if byte == b'x' => Ok(Place::Byte),
        Place::Byte => Ok(Place::Digit(digit(byte)?)),
        Place::Plain => added(byte, value),
        Place::Escape => added(escaped(byte)?, value),
        Place::Digit(first) => added(first.wrapping_mul(16).wrapping_add(digit(byte)?), value),
    }
}

fn added(byte: u8, value: &mut Vec<u8>) -> Result<Place, TableError> {
    value.push(byte)?;
    Ok(Place::Plain)
}

/// What a letter means behind a backslash.
fn escaped(letter: u8) -> Result<u8, TableError> {
    match letter {
        b'n' => Ok(b'\n'),
        b'r' => Ok(b'\r'),
        b't' => Ok(b'\t'),
        b'0' => Ok(0),
        b'\\' | b'"' => Ok(letter),
        _ => Err(TableError::BadEscape),
    }
}

/// What a hexadecimal digit means.
fn digit(letter: u8) -> Result<u8, TableError> {
    match letter {
        b'0'..=b'9' => Ok(letter.wrapping_sub(b'0')),
        b'a'..=b'f' => Ok(letter.wrapping_sub(b'a').wrapping_add(10)),
        b'A'..=b'F' => Ok(letter.wrapping_sub(b'A').wrapping_add(10)),
        _ => Err(TableError::BadEscape),
    }
}
