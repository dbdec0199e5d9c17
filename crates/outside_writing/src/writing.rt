//! All bytes go out, or those that the sink took before it failed.

ghost use Rattle.std.specs.Prelude.{◌≡◌, ℕ, nat_lt, length};
ghost use Rattle.outside_writing.specs.Sinks.{Takes};

use outside_traits::{Failed, Sink};

/// Writes the bytes, as far as the sink takes them, and says how many it took.
pub fn write_all<K: Sink>(sink: &mut K, bytes: &[u8]) -> usize
    ensures { Takes bytes.now result (K.told sink.old) (K.told sink.new) }
{
    let mut done = 0;
    while done < bytes.len() {
        match sink.write(&bytes[done..]) {
            Ok(count) => done += count,
            Err(Failed) => return done,
        }
    }
    done
}

/// Writes the bytes, as far as the sink takes them. It says whether the sink failed.
pub fn write_cut<K: Sink>(sink: &mut K, bytes: &[u8]) -> bool
    ensures { (count : ℕ) × Takes bytes.now count (K.told sink.old) (K.told sink.new)
        × (result ≡ nat_lt count (length bytes.now)) }
{
    let count = write_all(sink, bytes);
    count < bytes.len()
}
