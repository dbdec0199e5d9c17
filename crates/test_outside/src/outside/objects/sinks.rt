//! Rows of sinks.

use crate::outside::objects::calls::Calls;
use outside_traits::{Failed, Outputs, Script, ScriptedSink, Sink, UnfailingSink};
use std::alloc::{AllocError, Global};
use test_rows::{Row, TableError};

/// Does the calls of a row.
pub fn called(alloc: Global, row: &Row<'_>, calls: &mut Calls) -> Result<(), TableError> {
    let writes = row.text(alloc, "writes")?;
    if row.has("fails") {
        let failing = u64::from(row.number(alloc, "fails")?);
        return Ok(scripted(alloc, failing, writes.as_str(), calls)?);
    }
    let kind = row.text(alloc, "kind")?;
    if kind.as_str() == "unfailed" {
        unfailed(alloc, writes.as_str(), calls)?;
    } else {
        outputs(alloc, writes.as_str(), calls)?;
    }
    Ok(())
}

fn scripted(
    alloc: Global,
    failing: u64,
    writes: &str,
    calls: &mut Calls,
) -> Result<(), AllocError> {
    let script = Script::new(alloc, &[failing])?;
    let mut sink = ScriptedSink::new(alloc, 4, 2, script)?;
    write_each(&mut sink, writes, calls)?;
    calls.moved(sink.bytes())
}

fn unfailed(alloc: Global, writes: &str, calls: &mut Calls) -> Result<(), AllocError> {
    let mut sink = UnfailingSink::new(alloc, 4)?;
    write_each(&mut sink, writes, calls)?;
    calls.moved(sink.bytes())
}

fn outputs(alloc: Global, writes: &str, calls: &mut Calls) -> Result<(), AllocError> {
    let mut taken = Vec::new(alloc);
    let mut output = Outputs::new(&mut taken);
    write_each(&mut output, writes, calls)
}

/// Writes each word.
fn write_each<S: Sink>(sink: &mut S, writes: &str, calls: &mut Calls) -> Result<(), AllocError> {
    let mut call = 0_u32;
    for word in writes.split(' ') {
        match sink.write(word.as_bytes()) {
            Ok(len) => calls.gave(len)?,
            Err(Failed) => calls.failed(call)?,
        }
        call = call.wrapping_add(1);
    }
    Ok(())
}
