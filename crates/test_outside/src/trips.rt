//! Trips over HTTP with diallers in memory: what is written and what comes of a response, whole, cut at each place and
//! byte by byte, and with one fault at each call of the wire; and several trips of one link.

mod links;
mod peer;
mod series;
mod travels;

use std::alloc::Global;
use test_rows::{Row, TableError};

/// What the trips of a row give.
pub fn given(alloc: Global, row: &Row<'_>) -> Result<String, TableError> {
    if row.has("first") {
        series::given(alloc, row)
    } else {
        travels::given(alloc, row)
    }
}
