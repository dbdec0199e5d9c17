//! Bytes of connections: what a reader gives of them, and how they are served; whole, cut at each place and byte by
//! byte; a long one, whole and byte by byte.

mod answers;
mod served;
mod stream;
mod transcript;

use crate::readings::stream::stream_of;
use crate::readings::transcript::{is_same_byte_by_byte, is_same_in_pieces, transcript_of};
use std::alloc::Global;
use test_rows::{Row, TableError};

/// What the row expects of its bytes: what is given of them, or how they are served.
pub fn expected(alloc: Global, row: &Row<'_>) -> Result<String, TableError> {
    if row.has("given") {
        return row.text(alloc, "given");
    }
    served::expected(alloc, row)
}

/// What is given of the row's bytes, or how they are served.
pub fn given(alloc: Global, row: &Row<'_>) -> Result<String, TableError> {
    if row.has("given") {
        return read(alloc, row);
    }
    served::given(alloc, row)
}

/// What a reader gives of the row's bytes, and a remark where it gives something else of their pieces.
fn read(alloc: Global, row: &Row<'_>) -> Result<String, TableError> {
    let bytes = stream_of(alloc, row)?;
    let bytes = bytes.as_slice();
    let mut whole = transcript_of(alloc, &[bytes])?;
    let is_same = if row.has("times") {
        is_same_byte_by_byte(alloc, bytes, whole.as_str())?
    } else {
        is_same_in_pieces(alloc, bytes, whole.as_str())?
    };
    if !is_same {
        whole.push_str(", and it differs in pieces")?;
    }
    Ok(whole)
}
