//! The status of a run over lines.

ghost use Rattle.std.specs.Prelude.{◌≡◌};
ghost use Rattle.run_lines.specs.Steps as spec;

/// The status of a run: that of its source's failure, of its front's halt, or of a session that could still act with
/// its whole budget used, the least of those that came; and 0 where none did.
pub(crate) fn status_of(failed: bool, halted: bool, spent: bool) -> u8
    ensures { result ≡ spec.status_of failed halted spent }
{
    if failed {
        return 4;
    }
    if halted {
        return 5;
    }
    if spent {
        return 6;
    }
    0
}
