ghost use Rattle.std.specs.Prelude.{◌≡◌, alloc_error};
ghost use Rattle.outside_traits.specs.declared.errors.CallError.TheVariants.{Failed as CallFailed, Memory};

use std::alloc::{AllocError, AllocFailed};
use thiserror::Error;

/// A call of the outside failed.
#[derive(Clone, Copy, Debug, PartialEq, Eq, Error)]
#[error("a call of the outside failed")]
pub struct Failed;

/// Why a call of the outside that takes memory gave nothing.
#[derive(Debug, Drop, Error)]
pub enum CallError {
    #[error("a call of the outside failed")]
    Failed,
    #[error(transparent)]
    Memory(AllocError),
}

impl From<Failed> for CallError {
    ghost from_gives = { λ _ e. e ≡ CallFailed };

    fn from(_: Failed) -> CallError {
        CallError::Failed
    }
}

impl From<AllocError> for CallError {
    ghost from_gives = { λ cause e. e ≡ Memory cause };

    fn from(cause: AllocError) -> CallError {
        CallError::Memory(cause)
    }
}

impl<T: Drop> From<AllocFailed<T>> for CallError {
    ghost from_gives = { λ _ e. e ≡ Memory alloc_error };

    fn from(_: AllocFailed<T>) -> CallError {
        CallError::Memory(AllocError)
    }
}
