//! The lines of an explanation.

ghost use Rattle.std.specs.Prelude.{◌≡◌, ◌++◌, IfOk, OnOk, map, string_bytes};
ghost use Rattle.explain_text.specs.Explained as spec;

use explain_places::{Place, line_of, mark_of, place_of};
use std::alloc::{AllocError, Global};

/// Adds words of a place of a file's text: where it is, the line in which it stands as it is shown, and a mark under
/// it.
#[tactic(auto, using(crate::proofs::Pieces::five_more))]
pub fn add_pointed(
    alloc: Global,
    file: &str,
    text: &[u8],
    at: usize,
    words: &str,
    bytes: &mut Vec<u8>,
) -> Result<(), AllocError>
    ensures { OnOk result (bytes.new.items ≡ bytes.old.items ++ spec.pointed file.now text.now at words.now) }
{
    let head = head(alloc, file, place_of(text, at), words)?;
    let mark = mark_of(alloc, text, at)?;
    bytes.extend_from_slice(head.as_bytes())?;
    add_shown(bytes, line_of(text, at))?;
    bytes.extend_from_slice("\n".as_bytes())?;
    bytes.extend_from_slice(mark.as_slice())?;
    bytes.extend_from_slice("\n".as_bytes())?;
    Ok(())
}

/// Adds bytes as they are shown.
fn add_shown(bytes: &mut Vec<u8>, line: &[u8]) -> Result<(), AllocError>
    ensures { OnOk result (bytes.new.items ≡ bytes.old.items ++ map spec.shown line.now) }
{
    for byte in line {
        bytes.push(shown(*byte))?;
    }
    Ok(())
}

/// What is written for a byte.
fn shown(byte: u8) -> u8
    ensures { result ≡ spec.shown byte }
{
    if is_hidden(byte) { b'?' } else { byte }
}

/// Whether no terminal shows a byte.
fn is_hidden(byte: u8) -> bool
    ensures { result ≡ spec.is_hidden byte }
{
    (byte < 32 && byte != b'\t') || byte == 127
}

/// The line that says where a place is and what is said of it.
fn head(alloc: Global, file: &str, place: Place, words: &str) -> Result<String, AllocError>
    ensures { IfOk result (λ line. string_bytes line ≡ spec.head_line file.now place.line place.column words.now) }
{
    let line = place.line;
    let column = place.column;
    format!(in alloc; "{file}:{line}:{column}: {words}\n")
}

/// The line of a file that can't be read.
pub fn unreadable(alloc: Global, file: &str) -> Result<String, AllocError>
    ensures { IfOk result (λ line. string_bytes line ≡ spec.unreadable_line file.now) }
{
    format!(in alloc; "{file}: cannot be read\n")
}

/// Adds a line of a kind, or none where there is nothing to say.
#[tactic(auto, using(crate::proofs::Pieces::three_more, crate::proofs::Pieces::no_line, crate::proofs::Pieces::some_line))]
pub fn add_line(bytes: &mut Vec<u8>, kind: &str, said: &[u8]) -> Result<(), AllocError>
    ensures { OnOk result (bytes.new.items ≡ bytes.old.items ++ spec.line_if_any kind.now said.now) }
{
    if said.is_empty() {
        return Ok(());
    }
    bytes.extend_from_slice(kind.as_bytes())?;
    bytes.extend_from_slice(said)?;
    bytes.extend_from_slice("\n".as_bytes())?;
    Ok(())
}
