ghost use Rattle.std.specs.Prelude.{◌≡◌, IfOk, flat_map, string_bytes, false};
ghost use Rattle.std.specs.Char.{encode_utf8};
ghost use Rattle.serde_json.specs.Data.{string};
ghost use Rattle.serde_json.specs.View.{view};
ghost use Rattle.run_text.specs.Strings as spec;

use serde_json::Value;
use std::alloc::{AllocError, Global};

/// A text in quotes.
pub(crate) fn text_string(alloc: Global, text: &str) -> Result<String, AllocError>
    ensures { IfOk result (λ quoted. string_bytes quoted ≡ spec.text_string text.now) }
{
    Value::try_from_str(alloc, text)?.to_string(alloc)
}

/// Bytes in quotes, each as the code point of its value.
pub(crate) fn bytes_string(alloc: Global, bytes: &[u8]) -> Result<String, AllocError>
    ensures { IfOk result (λ quoted. string_bytes quoted ≡ spec.bytes_string bytes.now) }
{
    let points = code_points(alloc, bytes)?;
    text_string(alloc, points.as_str())
}

/// The text of the code points that are the values of bytes.
fn code_points(alloc: Global, bytes: &[u8]) -> Result<String, AllocError>
    ensures { IfOk result (λ text. string_bytes text ≡ flat_map encode_utf8 bytes.now) }
{
    let mut text = String::new(alloc);
    for byte in bytes {
        text.push(*byte as char)?;
    }
    Ok(text)
}
