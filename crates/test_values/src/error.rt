use std::alloc::AllocError;
use thiserror::Error;

/// Why words mean nothing.
#[derive(Debug, Drop, Error)]
pub enum WordError {
    #[error("a word means nothing where it stands")]
    Unknown,
    #[error("a word lacks what it takes")]
    Lacking,
    #[error("out of memory")]
    Memory(#[from(alloc)] AllocError),
}
