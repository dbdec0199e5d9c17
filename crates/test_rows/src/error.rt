use std::alloc::AllocError;
use thiserror::Error;

/// Why a field has no value.
#[derive(Debug, Drop, Error)]
pub enum TableError {
    #[error("there is no field {0:?}")]
    Missing(&'static str),
    #[error("a field {0:?} is no text")]
    NoText(&'static str),
    #[error("a field {0:?} is no number")]
    NoNumber(&'static str),
    #[error("an escape is unknown or cut")]
    BadEscape,
    #[error("out of memory")]
    Memory(#[from(alloc)] AllocError),
}
