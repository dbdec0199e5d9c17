//! The bytes of responses.
ghost use Rattle.std.specs.Prelude.{◌≡◌, ◌++◌, IfOk, OnOk, string_bytes};
ghost use Rattle.http_port.specs.Responses.{reason_of, status_line, line_if, length_line, head_text, response};

use crate::status::{
    BAD_REQUEST, CONTENT_TOO_LARGE, HEADER_FIELDS_TOO_LARGE, LENGTH_REQUIRED, METHOD_NOT_ALLOWED,
    NO_CONTENT, OK,
};
use jolie_trees::Bytes;
use std::alloc::{AllocError, Global};

/// The bytes of a response. One of status 204 has no body.
pub fn response_bytes(
    alloc: Global,
    status: u16,
    body: &[u8],
    close: bool,
) -> Result<Bytes, AllocError>
    ensures { IfOk result (λ bytes. bytes ≡ response status body.now close) }
{
    let body = if status == NO_CONTENT { &[] } else { body };
    let head = head_of(alloc, status, body.len(), close)?;
    let mut bytes = Bytes::from_slice(alloc, head.as_bytes())?;
    bytes.extend_from_slice(body)?;
    Ok(bytes)
}

/// The head of a response with so many bytes of body.
fn head_of(alloc: Global, status: u16, length: usize, close: bool) -> Result<String, AllocError>
    ensures { IfOk result (λ head. string_bytes head ≡ head_text status length close) }
{
    let mut head = status_line(alloc, status)?;
    push_line_if(&mut head, status == METHOD_NOT_ALLOWED, "Allow: POST")?;
    push_line_if(&mut head, status == OK, "Content-Type: application/json")?;
    push_length(&mut head, status, length)?;
    push_line_if(&mut head, close, "Connection: close")?;
    head.push_str("\r\n")?;
    Ok(head)
}

/// The first line of a response.
fn status_line(alloc: Global, status: u16) -> Result<String, AllocError>
    ensures { IfOk result (λ line. string_bytes line ≡ status_line status) }
{
    let reason = reason_of(status);
    format!(in alloc; "HTTP/1.1 {status} {reason}\r\n")
}

/// Adds a line, where it belongs there.
fn push_line_if(head: &mut String, belongs: bool, line: &str) -> Result<(), AllocError>
    ensures { OnOk result (string_bytes head.new ≡ string_bytes head.old ++ line_if belongs line.now) }
{
    if belongs {
        head.push_str(line)?;
        head.push_str("\r\n")?;
    }
    Ok(())
}

/// Adds the line that says how long the body is, which a response without one has none of.
fn push_length(head: &mut String, status: u16, length: usize) -> Result<(), AllocError>
    ensures { OnOk result (string_bytes head.new ≡ string_bytes head.old ++ length_line status length) }
{
    if status != NO_CONTENT {
        write!(head, "Content-Length: {length}\r\n")?;
    }
    Ok(())
}

/// The reason phrase of each status that is sent.
fn reason_of(status: u16) -> &'static str
    ensures { result.now ≡ reason_of status }
{
    match status {
        OK => "OK",
        NO_CONTENT => "No Content",
        BAD_REQUEST => "Bad Request",
        METHOD_NOT_ALLOWED => "Method Not Allowed",
        LENGTH_REQUIRED => "Length Required",
        CONTENT_TOO_LARGE => "Content Too Large",
        HEADER_FIELDS_TOO_LARGE => "Request Header Fields Too Large",
        _ => "",
    }
}
