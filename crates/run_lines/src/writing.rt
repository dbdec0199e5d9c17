//! What goes out, and how much of it a sink took.

ghost use Rattle.std.specs.Prelude.{◌≡◌, ◌++◌, ℕ, nat_lt, length, take, MatchResult};
ghost use Rattle.outside_writing.specs.Sinks.{Takes};

use outside_traits::Sink;
use outside_writing::write_all;
use std::alloc::AllocError;

/// Writes the bytes, as far as the sink takes them, and keeps what it took after what was written. It says whether the
/// sink failed. After want of memory nothing was written.
pub(crate) fn write_kept<K: Sink>(
    sink: &mut K,
    bytes: &[u8],
    written: &mut Vec<u8>,
) -> Result<bool, AllocError>
    ensures { MatchResult result
        (λ cut. (count : ℕ) × Takes bytes.now count (K.told sink.old) (K.told sink.new)
        × (cut ≡ nat_lt count (length bytes.now))
        × (written.new.items ≡ written.old.items ++ take count bytes.now))
        (λ _. (written.new.items ≡ written.old.items) × (sink.new ≡ sink.old)) }
{
    written.reserve(bytes.len())?;
    let count = write_all(sink, bytes);
    written.extend_from_slice(&bytes[..count]).unwrap();
    Ok(count < bytes.len())
}
