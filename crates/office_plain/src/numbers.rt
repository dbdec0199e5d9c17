ghost use Rattle.std.specs.Prelude.{◌≡◌, ◌+◌, ◌<◌, ◌^◌, IfOk};

use std::alloc::AllocError;

/// A place as a number of 32 bits; one that they do not hold counts as want of memory.
pub fn numbered(place: usize) -> Result<u32, AllocError>
    ensures { IfOk result (λ number. number ≡ place) }
{
    if place > u32::MAX as usize {
        return Err(AllocError);
    }
    Ok(place as u32)
}

/// A number with some more, which 32 bits hold.
pub fn sum(number: u32, more: usize) -> u32
    requires { number + more < 2 ^ 32 }
    ensures { result ≡ number + more }
{
    number + more as u32
}
