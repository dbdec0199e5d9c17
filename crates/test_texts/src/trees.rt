//! Scripts over a tree, with what each of their lines gives.
//!
//! A row begins with a tree without children, which is true where it says so and void otherwise, and does its lines in
//! turn. A path is `a.b[2]`, a name again and again as `a*64`, or `-`, which is no step.
mod paths;
mod script;

use crate::trees::script::{first_tree, told};
use std::alloc::Global;
use test_rows::{Row, TableError};

/// What the lines of the row give, a line for each.
pub fn given(alloc: Global, row: &Row<'_>) -> Result<String, TableError> {
    let lines = row.text(alloc, "does")?;
    let mut tree = first_tree(alloc, row.has("root"));
    Ok(told(alloc, &mut tree, lines.as_str())?)
}
