//! What is outside of a run, in memory and as adapters over the real: what its calls give, and which of them fail.

mod doors;
mod links;
mod objects;

use std::alloc::Global;
use test_rows::{Row, TableError};

/// What a row expects. Doors and links have one field for it, other objects one for each aspect.
pub fn expected(alloc: Global, row: &Row<'_>) -> Result<String, TableError> {
    if row.has("gives") {
        row.text(alloc, "gives")
    } else {
        objects::expected(alloc, row)
    }
}

/// What the calls of a row give.
pub fn given(rt: &HostRuntime, row: &Row<'_>) -> Result<String, TableError> {
    match row.text(rt.alloc(), "object")?.as_str() {
        "doors" => doors::done(rt.alloc(), row),
        "link" => links::travelled(rt.alloc(), row),
        _ => objects::given(rt, row),
    }
}
