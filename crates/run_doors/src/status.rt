//! The status of a run over doors.

ghost use Rattle.std.specs.Prelude.{◌≡◌, ◌||◌};
ghost use Rattle.run_doors.specs.Steps as spec;

/// The status of a run: that of its front's halt, of a door that could not be opened or that failed later, or of a
/// session that could still act with its whole budget used; of the first two the least that came, the third only where
/// neither did, and 0 where none did.
pub(crate) fn status_of(halted: bool, unopened: bool, failed: bool, spent: bool) -> u8
    ensures { result ≡ spec.status_of halted (unopened || failed) spent }
{
    if halted {
        return 5;
    }
    if unopened || failed {
        return 7;
    }
    if spent {
        return 6;
    }
    0
}
