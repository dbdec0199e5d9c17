//! Rows of sources.

use crate::outside::objects::calls::{Calls, call_count};
use outside_traits::{Failed, Inputs, Script, ScriptedSource, Source, UnfailingSource};
use std::alloc::{AllocError, Global};
use test_rows::{Row, TableError};

/// Does the calls of a row.
pub fn called(alloc: Global, row: &Row<'_>, calls: &mut Calls) -> Result<(), TableError> {
    let content = row.bytes(alloc, "content")?;
    if row.has("fails") {
        return scripted(alloc, row, content.as_slice(), calls);
    }
    let count = call_count(alloc, row)?;
    let kind = row.text(alloc, "kind")?;
    if kind.as_str() == "unfailed" {
        unfailed(alloc, content.as_slice(), count, calls)?;
    } else {
        let mut input = Inputs::new(content.as_slice());
        read_small(&mut input, count, calls)?;
    }
    Ok(())
}

fn scripted(
    alloc: Global,
    row: &Row<'_>,
    content: &[u8],
    calls: &mut Calls,
) -> Result<(), TableError> {
    let failing = u64::from(row.number(alloc, "fails")?);
    let count = call_count(alloc, row)?;
    let script = Script::new(alloc, &[failing])?;
    let mut source = ScriptedSource::new(alloc, content, 2, script)?;
    Ok(read_large(&mut source, count, calls)?)
}

fn unfailed(
    alloc: Global,
    content: &[u8],
    count: u32,
    calls: &mut Calls,
) -> Result<(), AllocError> {
    let mut source = UnfailingSource::new(alloc, content)?;
    read_small(&mut source, count, calls)
}

/// Reads into two bytes.
fn read_small<S: Source>(source: &mut S, count: u32, calls: &mut Calls) -> Result<(), AllocError> {
    let mut buffer = [0; 2];
    for call in 0..count {
        match source.read(&mut buffer) {
            Ok(len) => {
                calls.gave(len)?;
                calls.moved(&buffer[..len])?;
            }
            Err(Failed) => calls.failed(call)?,
        }
    }
    Ok(())
}

/// Reads into eight bytes.
fn read_large<S: Source>(source: &mut S, count: u32, calls: &mut Calls) -> Result<(), AllocError> {
    let mut buffer = [0; 8];
    for call in 0..count {
        match source.read(&mut buffer) {
            Ok(len) => {
                calls.gave(len)?;
                calls.moved(&buffer[..len])?;
            }
            Err(Failed) => calls.failed(call)?,
        }
    }
    Ok(())
}
