//! Lines and columns.

ghost use Rattle.std.specs.Prelude.{◌≡◌};
ghost use Rattle.explain_places.specs.Places as spec;

use crate::line::{before, before_in_line};

/// A line and a column, both counted from 1. A column counts characters, as an editor does: bytes that are no UTF-8
/// count one each, but for 128 to 191, which count none.
#[derive(Clone, Copy, Debug, PartialEq, Eq)]
pub struct Place {
    pub line: usize,
    pub column: usize,
}

/// Whether a byte begins a character.
pub(crate) fn begins_character(byte: u8) -> bool
    ensures { result ≡ spec.begins_character byte }
{
    byte < 0x80 || 0xBF < byte
}

/// How many line feeds there are.
fn line_feeds(text: &[u8]) -> usize
    ensures { result ≡ spec.line_feeds text.now }
{
    text.iter().filter(|byte| **byte == b'\n').count()
}

/// How many characters there are.
fn characters(text: &[u8]) -> usize
    ensures { result ≡ spec.characters text.now }
{
    text.iter().filter(|byte| begins_character(**byte)).count()
}

/// The line and the column of a place.
#[tactic(auto, using(crate::proofs::Counts::counted, crate::proofs::Counts::one_more_fits))]
pub fn place_of(text: &[u8], at: usize) -> Place
    ensures line { result.line ≡ spec.line_at text.now at }
    ensures column { result.column ≡ spec.column_at text.now at }
{
    let lines_before = line_feeds(before(text, at));
    let characters_before = characters(before_in_line(text, at));
    Place {
        line: lines_before + 1,
        column: characters_before + 1,
    }
}
