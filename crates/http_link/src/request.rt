//! The bytes of requests.
ghost use Rattle.std.specs.Prelude.{◌≡◌, ◌++◌, IfOk, OnOk, drop};
ghost use Rattle.std.specs.List.{position, position_or_len};
ghost use Rattle.http_link.specs.Requests.{address, host, path_or_root, is_slash, line, request, request_head};

use std::alloc::{AllocError, Global};

/// What the location of a socket begins with.
const SCHEME: &[u8] = b"socket://";

/// The bytes of the request that takes a text to a location.
pub(crate) fn request_bytes(
    alloc: Global,
    location: &str,
    text: &[u8],
) -> Result<Vec<u8>, AllocError>
    ensures { IfOk result (λ bytes. bytes.items ≡ request location.now text.now) }
{
    let mut bytes = head_of(alloc, address_of(location.as_bytes()), text.len())?;
    bytes.extend_from_slice(text)?;
    Ok(bytes)
}

/// What a location says after its beginning, or all of it where it does not begin so.
fn address_of(location: &[u8]) -> &[u8]
    ensures { result.now ≡ address location.now }
{
    match location.strip_prefix(SCHEME) {
        Some(address) => address,
        None => location,
    }
}

/// The head of a request to an address, with so many bytes of body.
fn head_of(alloc: Global, address: &[u8], length: usize) -> Result<Vec<u8>, AllocError>
    ensures { IfOk result (λ head. head.items ≡ request_head address.now length) }
{
    let (host, path) = split_path(address);
    let length = format!(in alloc; "{length}")?;
    let mut head = Vec::from_slice(alloc, b"POST ")?;
    push_line(&mut head, path_or_root(path), b" HTTP/1.1")?;
    push_line(&mut head, b"Host: ", host)?;
    push_line(&mut head, b"Content-Type: ", b"application/json")?;
    push_line(&mut head, b"Content-Length: ", length.as_bytes())?;
    push_line(&mut head, b"Connection: ", b"close")?;
    head.extend_from_slice(b"\r\n")?;
    Ok(head)
}

/// The host and the port of an address, and what follows them.
fn split_path(address: &[u8]) -> (&[u8], &[u8])
    ensures host { result.0.now ≡ host address.now }
    ensures rest { result.1.now ≡ drop (position_or_len is_slash address.now) address.now }
{
    match first_slash(address) {
        Some(at) => address.split_at(at),
        None => (address, &[]),
    }
}

fn first_slash(address: &[u8]) -> Option<usize>
    ensures { result ≡ position is_slash address.now }
{
    address.iter().position(|byte| *byte == b'/')
}

/// A path, which is `/` where none is written.
fn path_or_root(path: &[u8]) -> &[u8]
    ensures { result.now ≡ path_or_root path.now }
{
    if path.is_empty() { b"/" } else { path }
}

/// Adds a line of two parts.
fn push_line(head: &mut Vec<u8>, first: &[u8], second: &[u8]) -> Result<(), AllocError>
    ensures { OnOk result (head.new.items ≡ head.old.items ++ line first.now second.now) }
{
    head.extend_from_slice(first)?;
    head.extend_from_slice(second)?;
    head.extend_from_slice(b"\r\n")
}
