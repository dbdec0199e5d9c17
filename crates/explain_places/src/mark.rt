//! A mark to stand under a place.

ghost use Rattle.std.specs.Prelude.{◌≡◌, IfOk};
ghost use Rattle.explain_places.specs.Places as spec;

use crate::line::before_in_line;
use crate::place::begins_character;
use std::alloc::{AllocError, Global};

/// What stands in the mark's line for a byte before the place: a tab for a tab and a space for any other character, so
/// that the mark stands under the place however wide a tab is; nothing for the further bytes of a character.
fn blank_for(byte: u8) -> Option<u8>
    ensures { result ≡ spec.blank_for byte }
{
    if !begins_character(byte) {
        return None;
    }
    Some(if byte == b'\t' { b'\t' } else { b' ' })
}

/// A line with a mark that stands under the place, where the line of the place stands above it.
pub fn mark_of(alloc: Global, text: &[u8], at: usize) -> Result<Vec<u8>, AllocError>
    ensures { IfOk result (λ mark. mark.items ≡ spec.mark_of text.now at) }
{
    let before = before_in_line(text, at);
    let mut mark = Vec::new(alloc);
    for byte in before {
        if let Some(blank) = blank_for(*byte) {
            mark.push(blank)?;
        }
    }
    mark.push(b'^')?;
    Ok(mark)
}
