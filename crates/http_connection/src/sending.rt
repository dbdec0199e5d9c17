//! What goes out on a wire.
ghost use Rattle.std.specs.Prelude.{◌≡◌, false, take, MatchResult};
ghost use Rattle.http_port.specs.Writing.{IsWritten};
ghost use Rattle.http_connection.specs.Seen.{seen};
ghost use Rattle.http_connection.specs.Prompt.{OnlyWrites};
ghost use Rattle.http_connection.specs.Steps.{Takes, Sends, Rests, Finishes};

use crate::kept::Kept;
use crate::stage::{Ending, Standing};
use outside_traits::{Failed, Wire};
use std::alloc::AllocError;

/// Writes the bytes, as far as the wire takes them, and says how many it took, which are kept: all, unless it failed.
fn write_all<W: Wire>(wire: &mut W, bytes: &[u8]) -> usize
    ensures takes { Takes bytes.now result
        (W.told wire.old)
        (W.told wire.new) }
    ensures calls { IsWritten (W.told wire.old).calls (W.told wire.new).calls (take result bytes.now) false }
{
    let mut done = 0;
    while done < bytes.len() {
        match wire.write(&bytes[done..]) {
            Ok(count) => done += count,
            Err(Failed) => return done,
        }
    }
    done
}

/// Writes the bytes and keeps those that the wire took, and says whether that cut them. After want of memory nothing
/// was written.
pub(crate) fn send<W: Wire>(wire: &mut W, kept: &mut Kept, bytes: &[u8]) -> Result<bool, AllocError>
    ensures sends { MatchResult result
        (λ cut. Sends bytes.now cut
        (seen kept.old (W.told wire.old))
        (seen kept.new (W.told wire.new)))
        (λ _. Rests kept.old kept.new × (wire.new ≡ wire.old)) }
    ensures wrote { OnlyWrites (W.told wire.old).calls (W.told wire.new).calls kept.old.written.items
        kept.new.written.items }
{
    kept.written.reserve(bytes.len())?;
    let count = write_all(wire, bytes);
    kept.written.extend_from_slice(&bytes[..count]).unwrap();
    Ok(count < bytes.len())
}

/// Closes the wire: the connection is over so.
pub(crate) fn finish<W: Wire>(wire: &mut W, kept: &mut Kept, ending: Ending)
    ensures finishes { Finishes ending
        (seen kept.old (W.told wire.old))
        (seen kept.new (W.told wire.new)) }
    ensures wrote { OnlyWrites (W.told wire.old).calls (W.told wire.new).calls kept.old.written.items
        kept.new.written.items }
    ensures ended { (W.told wire.new).ended ≡ (W.told wire.old).ended }
{
    wire.close();
    kept.stand(Standing::Over(ending));
}
