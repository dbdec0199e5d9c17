//! Connections whose answers come late: what is asked, when what is written, how the wire is called, and how each ends;
//! in pieces of each size, over a wire that does not wait, beside another connection, and with a wire that fails at each
//! of its calls.

mod alone;
mod beside;
mod failing;
mod polled;
mod talk;

use std::alloc::Global;
use test_rows::{Row, TableError};

/// What is seen of the row's connection.
pub fn given(alloc: Global, row: &Row<'_>) -> Result<String, TableError> {
    if row.has("beside") {
        return beside::given(alloc, row);
    }
    if row.has("each") {
        return failing::given(alloc, row);
    }
    alone::given(alloc, row)
}
