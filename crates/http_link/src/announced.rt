//! What the head of a response announces of its body.
ghost use Rattle.std.specs.Prelude.{◌≡◌, ◌≤◌, ◌<◌, ◌⊎◌, None, IfNone, IfSome, List, length, map, take, All, false};
ghost use Rattle.httparse.specs.Spans.{IsHeaderWithin, header_bytes};
ghost use Rattle.http1.specs.Fields.{Header};
ghost use Rattle.http_port.specs.Framing.{framing_of};
ghost use Rattle.http_port.specs.HeadPart.{HoldsScan, head_part};
ghost use Rattle.http_link.specs.Responses.{extent, extent_by_fields, is_success, IsNoResponse};
ghost use Rattle.http_link.specs.Steps.{Announces, Fits, FitsExtent, HasHead};

use http_port::{Framing, LONGEST_BODY, LONGEST_HEAD, MOST_FIELDS, Scan, Stated};
use http1::fields::KnownFields;
use httparse::Status;
use httparse::spans::{EMPTY_HEADER_SPAN, HeaderSpan, ResponseSpans, parse_response};

/// The status of a response that has no body.
const NO_CONTENT: u16 = 204;

/// How far the body of a response reaches.
#[derive(Clone, Copy)]
pub(crate) enum Extent {
    /// Over so many bytes.
    Sized(u32),
    /// To the end of what comes.
    ToEnd,
    /// It is no response.
    Refused,
}

/// What a head announces.
#[derive(Clone, Copy)]
pub(crate) struct Announced {
    /// How many bytes the head has.
    pub(crate) head: usize,
    /// How far the body after it reaches.
    pub(crate) extent: Extent,
}

/// No response is announced.
pub(crate) const NOTHING: Announced = Announced {
    head: 0,
    extent: Extent::Refused,
};

/// What bytes announce, of which a part was looked through before; none while the head part may still become whole.
pub(crate) fn announced_in(bytes: &[u8], scan: &mut Scan) -> Option<Announced>
    requires { HoldsScan (take LONGEST_HEAD bytes.now) scan.old }
    ensures none { IfNone result ((head_part bytes.now ≡ None) × (length bytes.now < LONGEST_HEAD)) }
    ensures some { IfSome result
        (λ a. HasHead bytes.now a ⊎ ((a.extent ≡ Extent.Refused) × IsNoResponse bytes.now false)) }
    ensures fits { IfSome result Fits }
    ensures scan { HoldsScan (take LONGEST_HEAD bytes.now) scan.new }
{
    let looked_at = &bytes[..bytes.len().min(LONGEST_HEAD)];
    match scan.finish(looked_at) {
        Some(end) => Some(announced_by(&looked_at[..end])),
        None if bytes.len() < LONGEST_HEAD => None,
        None => Some(NOTHING),
    }
}

/// What a whole head part announces.
fn announced_by(part: &[u8]) -> Announced
    ensures announces { Announces part.now result }
    ensures within { result.head ≤ length part.now }
    ensures fits { FitsExtent result.extent }
{
    let mut fields = [EMPTY_HEADER_SPAN; MOST_FIELDS];
    match parse_response(part, &mut fields) {
        Ok(Status::Complete(head)) => Announced {
            head: head.len,
            extent: extent_of(part, &head, &fields[..head.headers]),
        },
        Ok(Status::Partial) => NOTHING,
        Err(_) => NOTHING,
    }
}

/// How far the body after a head reaches.
fn extent_of(part: &[u8], head: &ResponseSpans, fields: &[HeaderSpan]) -> Extent
    requires { All (IsHeaderWithin (length part.now)) fields.now }
    ensures extent { result ≡ extent head.now.code (map (header_bytes part.now) fields.now) }
    ensures fits { FitsExtent result }
{
    if !is_success(head.code) {
        return Extent::Refused;
    }
    if head.code == NO_CONTENT {
        return Extent::Sized(0);
    }
    let known = KnownFields::from_spans(part, fields);
    extent_by(Framing::of(known, part, fields))
}

/// A status of 200 to 299.
fn is_success(status: u16) -> bool
    ensures { result ≡ is_success status }
{
    200 <= status && status < 300
}

/// What the fields say of how far a body reaches.
fn extent_by(framing: Framing) -> Extent
    ensures extent { (headers : List Header) → framing ≡ framing_of headers → result ≡ extent_by_fields headers }
    ensures fits { FitsExtent result }
{
    if framing.is_coded {
        return Extent::Refused;
    }
    match framing.stated {
        Stated::Nothing => Extent::ToEnd,
        Stated::Length(length) if length <= LONGEST_BODY => Extent::Sized(length),
        Stated::Length(_) => Extent::Refused,
        Stated::Unclear => Extent::Refused,
    }
}
