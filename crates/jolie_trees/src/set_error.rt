ghost use Rattle.std.specs.Prelude.{◌≡◌};
ghost use Rattle.jolie_trees.specs.declared.set_error.SetError.TheVariants.{Memory};

use std::alloc::AllocError;
use thiserror::Error;

/// Why a tree was not changed as asked.
#[derive(Debug, Drop, Error)]
pub enum SetError {
    /// The tree would have so many nodes.
    #[error("a tree of {0} nodes is too large")]
    TooLarge(u64),
    /// The tree would have so many levels.
    #[error("a tree of {0} levels is too deep")]
    TooDeep(u32),
    #[error("out of memory")]
    Memory(AllocError),
}

impl From<AllocError> for SetError {
    ghost from_gives = { λ cause error. error ≡ Memory cause };

    fn from(cause: AllocError) -> SetError {
        SetError::Memory(cause)
    }
}
