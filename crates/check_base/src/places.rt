ghost use Rattle.std.specs.Prelude.{◌≡◌, ◌<◌, ◌^◌, ◌↔◌, IfOk, IsOk};
ghost use Rattle.check_base.specs.Files.{place_in};

use crate::names::Names;
use std::alloc::AllocError;

/// How many texts stand before the first that is this one, all of them where none is, as a number of the program. What
/// is past 32 bits is told as want of memory.
#[tactic(auto, using(crate::proofs::PlaceCounts::counted_there, crate::proofs::PlaceCounts::counted_missing))]
pub fn number(names: &Names<'_>, text: &str) -> Result<u32, AllocError>
    ensures { IfOk result (λ n. n ≡ place_in names.now text.now) }
{
    match names.place(text) {
        Some(place) => fitting(place),
        None => fitting(names.len()),
    }
}

/// A number of the program. It takes no memory: a number past 32 bits, and no other, is told as want of it. None comes
/// of a text, which has at most 1,048,576 bytes, and at least one for each thing that is numbered.
pub fn fitting(place: usize) -> Result<u32, AllocError>
    ensures value { IfOk result (λ n. n ≡ place) }
    ensures fits { IsOk result ↔ (place < 2 ^ 32) }
{
    match u32::try_from(place) {
        Ok(number) => Ok(number),
        Err(_) => Err(AllocError),
    }
}
