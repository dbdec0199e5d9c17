ghost use Rattle.std.specs.Prelude.{◌≡◌, ◌<◌, ◌^◌};
ghost use Rattle.jolie_trees.specs.Limits as limits;

/// A place as a number of the program.
pub fn numbered(place: usize) -> u32
    requires { place < 2 ^ 32 }
    ensures { result ≡ place }
{
    place as u32
}

/// A place as far as 32 bits hold it.
pub fn in_u32(place: usize) -> u32
    ensures { result ≡ limits.in_u32 place }
{
    if place > u32::MAX as usize {
        u32::MAX
    } else {
        place as u32
    }
}
