//! What a table writes, and what it means. The last rows of its file do not hold, and are told so.

use std::alloc::Global;
use test_rows::{Row, TableError};

/// What the row's text means, or why it means nothing.
pub fn given(alloc: Global, row: &Row<'_>) -> Result<String, TableError> {
    match row.text(alloc, "text") {
        Ok(text) => Ok(format!(in alloc; "{text:?}")?),
        Err(refusal) => Ok(format!(in alloc; "{refusal}")?),
    }
}
