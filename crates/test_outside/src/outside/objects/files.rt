//! Rows of files.

use crate::outside::objects::calls::{Calls, call_count};
use outside_traits::{CallError, Files, Script, ScriptedFiles, Storage, UnfailingFiles};
use std::alloc::{AllocError, Global};
use test_rows::{Row, TableError};

/// Which file is read, how much of it and how often.
#[derive(Clone, Copy)]
struct Reads<'a> {
    name: &'a str,
    most: u64,
    calls: u32,
}

/// Does the calls of a row.
pub fn called(rt: &HostRuntime, row: &Row<'_>, calls: &mut Calls) -> Result<(), TableError> {
    let alloc = rt.alloc();
    let name = row.text(alloc, "name")?;
    let reads = Reads {
        name: name.as_str(),
        most: u64::from(row.number(alloc, "most")?),
        calls: call_count(alloc, row)?,
    };
    if row.has("content") {
        return in_memory(alloc, row, reads, calls);
    }
    let mut storage = Storage::new(alloc, rt);
    read_each(&mut storage, reads, row.has("bytes"), calls)?;
    Ok(calls.asked(storage.asked())?)
}

fn in_memory(
    alloc: Global,
    row: &Row<'_>,
    reads: Reads<'_>,
    calls: &mut Calls,
) -> Result<(), TableError> {
    let content = row.bytes(alloc, "content")?;
    if row.has("fails") {
        let failing = u64::from(row.number(alloc, "fails")?);
        return Ok(scripted(alloc, failing, content.as_slice(), reads, calls)?);
    }
    let mut files = UnfailingFiles::new(alloc, content.as_slice())?;
    read_each(&mut files, reads, true, calls)?;
    Ok(calls.asked(files.asked())?)
}

fn scripted(
    alloc: Global,
    failing: u64,
    content: &[u8],
    reads: Reads<'_>,
    calls: &mut Calls,
) -> Result<(), AllocError> {
    let script = Script::new(alloc, &[failing])?;
    let mut files = ScriptedFiles::new(alloc, content, script)?;
    read_each(&mut files, reads, true, calls)?;
    calls.asked(files.asked())
}

fn read_each<F: Files>(
    files: &mut F,
    reads: Reads<'_>,
    shown: bool,
    calls: &mut Calls,
) -> Result<(), AllocError> {
    for call in 0..reads.calls {
        match files.read(reads.name, reads.most) {
            Ok(bytes) => came(bytes.as_slice(), shown, calls)?,
            Err(CallError::Failed) => calls.failed(call)?,
            Err(CallError::Memory(cause)) => return Err(cause),
        }
    }
    Ok(())
}

fn came(bytes: &[u8], shown: bool, calls: &mut Calls) -> Result<(), AllocError> {
    calls.gave(bytes.len())?;
    if shown {
        calls.moved(bytes)?;
    }
    Ok(())
}
