//! Sources, sinks, wires and files, with what their calls give and which of them fail.
mod calls;
mod files;
mod sinks;
mod sources;
mod wires;

use crate::outside::objects::calls::Calls;
use std::alloc::Global;
use test_rows::{Row, TableError};

/// What a row may expect.
const ASPECTS: [&str; 5] = ["bytes", "counts", "failed", "written", "told"];

/// What the row expects, a line for each aspect.
pub fn expected(alloc: Global, row: &Row<'_>) -> Result<String, TableError> {
    let mut all = String::new(alloc);
    for aspect in ASPECTS {
        if row.has(aspect) {
            all.push_str(row.text(alloc, aspect)?.as_str())?;
            all.push('\n')?;
        }
    }
    Ok(all)
}

/// What the row's calls give, a line for each aspect that it expects.
pub fn given(rt: &HostRuntime, row: &Row<'_>) -> Result<String, TableError> {
    let mut calls = Calls::new(rt.alloc());
    let object = row.text(rt.alloc(), "object")?;
    match object.as_str() {
        "source" => sources::called(rt.alloc(), row, &mut calls)?,
        "sink" => sinks::called(rt.alloc(), row, &mut calls)?,
        "wire" => wires::called(rt.alloc(), row, &mut calls)?,
        _ => files::called(rt, row, &mut calls)?,
    }
    let mut all = String::new(rt.alloc());
    for aspect in ASPECTS {
        if row.has(aspect) {
            all.push_str(calls.aspect(aspect))?;
            all.push('\n')?;
        }
    }
    Ok(all)
}
