//! What a reader gives, as text.
use http_port::{Fed, HeadReader};
use std::alloc::{AllocError, Global};

/// The most that one piece brings.
const MOST: usize = 100;

/// What a connection's bytes bring in these pieces.
pub(crate) fn transcript_of(alloc: Global, pieces: &[&[u8]]) -> Result<String, AllocError> {
    let mut reader = HeadReader::new(alloc);
    let mut text = String::new(alloc);
    for piece in pieces {
        read(&mut reader, piece, &mut text)?;
    }
    if text.is_empty() {
        text.push_str("nothing")?;
    }
    Ok(text)
}

/// Adds what one piece brings.
fn read(reader: &mut HeadReader, piece: &[u8], text: &mut String) -> Result<(), AllocError> {
    let mut fed = reader.feed(piece)?;
    for _ in 0..MOST {
        if matches!(fed, Fed::NotYet) {
            return Ok(());
        }
        if !text.is_empty() {
            text.push_str(", ")?;
        }
        write_fed(&fed, text)?;
        fed = reader.feed(&[])?;
    }
    Ok(())
}

fn write_fed(fed: &Fed, text: &mut String) -> Result<(), AllocError> {
    match fed {
        Fed::NotYet => text.push_str("not yet"),
        Fed::Interim => text.push_str("interim"),
        Fed::Refused(status) => {
            let status = *status;
            write!(text, "refused {status}")
        }
        Fed::Request { body, close } => {
            text.push_str("request ")?;
            for byte in body.as_slice() {
                write_byte(*byte, text)?;
            }
            if *close {
                text.push_str(" close")?;
            }
            Ok(())
        }
    }
}

fn write_byte(byte: u8, text: &mut String) -> Result<(), AllocError> {
    match byte {
        b'\r' => text.push_str("<CR>"),
        b'\n' => text.push_str("<LF>"),
        _ => text.push(char::from(byte)),
    }
}

/// Whether the bytes bring the same in two pieces, wherever they are cut, and byte by byte.
pub(crate) fn is_same_in_pieces(
    alloc: Global,
    bytes: &[u8],
    whole: &str,
) -> Result<bool, AllocError> {
    for cut in 0..bytes.len() {
        let (front, back) = bytes.split_at(cut);
        if transcript_of(alloc, &[front, back])?.as_str() != whole {
            return Ok(false);
        }
    }
    is_same_byte_by_byte(alloc, bytes, whole)
}

/// Whether the bytes bring the same byte by byte with nothing between.
pub(crate) fn is_same_byte_by_byte(
    alloc: Global,
    bytes: &[u8],
    whole: &str,
) -> Result<bool, AllocError> {
    Ok(byte_by_byte(alloc, bytes)?.as_str() == whole)
}

fn byte_by_byte(alloc: Global, bytes: &[u8]) -> Result<String, AllocError> {
    let mut reader = HeadReader::new(alloc);
    let mut text = String::new(alloc);
    for byte in bytes {
        read(&mut reader, &[*byte], &mut text)?;
        read(&mut reader, &[], &mut text)?;
    }
    if text.is_empty() {
        text.push_str("nothing")?;
    }
    Ok(text)
}
