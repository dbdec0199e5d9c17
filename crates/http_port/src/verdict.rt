//! What the bytes at the front of a connection are judged to be.
ghost use Rattle.std.specs.Prelude.{◌≡◌, ◌≤◌, List, ℕ, length, map, take, All, IfSome, IsSome};
ghost use Rattle.httparse.specs.Grammar.{ReadsRequest, RequestHead};
ghost use Rattle.httparse.specs.Spans.{IsHeaderWithin, header_bytes, span_bytes, IsWithin};
ghost use Rattle.http1.specs.Fields.{Header, known_fields};
ghost use Rattle.http_port.specs.HeadPart.{HoldsScan};
ghost use Rattle.http_port.specs.Rules.{verdict_of, JudgesPart, Judges};
ghost use Rattle.http_port.specs.Walks.{wishes_of};

use crate::fields::{Framing, LONGEST_BODY, Stated};
use crate::scan::Scan;
use crate::status::{
    BAD_REQUEST, CONTENT_TOO_LARGE, HEADER_FIELDS_TOO_LARGE, LENGTH_REQUIRED, METHOD_NOT_ALLOWED,
};
use http1::fields::KnownFields;
use httparse::Status;
use httparse::spans::{EMPTY_HEADER_SPAN, HeaderSpan, RequestSpans, parse_request};

/// The most bytes of a head part.
pub const LONGEST_HEAD: usize = 8192;

/// The most fields of a head.
pub const MOST_FIELDS: usize = 64;

/// As many fields as most heads have at most. Room for these alone is made faster.
const FEW_FIELDS: usize = 16;

/// A request that is not refused, by its head.
#[derive(Clone, Copy)]
pub(crate) struct Admission {
    /// How many bytes the head has.
    pub(crate) head: u32,
    /// How many bytes the body has.
    pub(crate) body: u32,
    /// The connection closes with the answer.
    pub(crate) close: bool,
    /// An interim line is asked for.
    pub(crate) interim: bool,
}

/// What the bytes at the front of a connection are judged to be.
#[derive(Clone, Copy)]
pub(crate) enum Verdict {
    /// The head part is not whole, and may still be.
    Pending,
    /// No request is taken, for the reason that this status names.
    Refuses(u16),
    /// There is a whole head of a request.
    Admits(Admission),
}

/// What a head says beside the length of its body.
#[derive(Clone, Copy)]
pub(crate) struct Wishes {
    lacks_host: bool,
    close: bool,
    interim: bool,
}

impl Wishes {
    fn of(minor: u8, known: KnownFields) -> Wishes
        ensures { (headers : List Header) → known ≡ known_fields headers → result ≡ wishes_of minor headers }
    {
        if minor == 0 {
            return Wishes {
                lacks_host: false,
                close: true,
                interim: false,
            };
        }
        Wishes {
            lacks_host: known.hosts != 1,
            close: known.close,
            interim: known.expect_continue,
        }
    }
}

/// Judges the bytes at the front of a connection, of which a part was looked through before.
pub(crate) fn judge(bytes: &[u8], scan: &mut Scan) -> Verdict
    requires { HoldsScan (take LONGEST_HEAD bytes.now) scan.old }
    ensures verdict { Judges bytes.now result }
    ensures scan { HoldsScan (take LONGEST_HEAD bytes.now) scan.new }
{
    let looked_at = &bytes[..bytes.len().min(LONGEST_HEAD)];
    match scan.finish(looked_at) {
        Some(end) => judge_part(&looked_at[..end]),
        None if bytes.len() < LONGEST_HEAD => Verdict::Pending,
        None => Verdict::Refuses(HEADER_FIELDS_TOO_LARGE),
    }
}

/// Judges a whole head part.
fn judge_part(part: &[u8]) -> Verdict
    requires { length part.now ≤ LONGEST_HEAD }
    ensures { JudgesPart part.now result }
{
    let mut few = [EMPTY_HEADER_SPAN; FEW_FIELDS];
    if let Some(verdict) = judge_in_room(part, &mut few) {
        return verdict;
    }
    let mut most = [EMPTY_HEADER_SPAN; MOST_FIELDS];
    match judge_in_room(part, &mut most) {
        Some(verdict) => verdict,
        None => Verdict::Refuses(BAD_REQUEST),
    }
}

/// Judges a whole head part by the head that it begins with, if there is one whose fields have the room.
fn judge_in_room(part: &[u8], room: &mut [HeaderSpan]) -> Option<Verdict>
    requires part { length part.now ≤ LONGEST_HEAD }
    requires room { length room.old ≤ MOST_FIELDS }
    ensures judges { IfSome result (JudgesPart part.now) }
    ensures found { (h : RequestHead) (rest : List ℕ) → ReadsRequest part.now h rest
        → length h.fields ≤ length room.old → IsSome result }
{
    match parse_request(part, room) {
        Ok(Status::Complete(head)) => Some(judge_head(part, &head, &room[..head.headers])),
        _ => None,
    }
}

/// Judges a head: the first rule that refuses it decides.
fn judge_head(part: &[u8], head: &RequestSpans, fields: &[HeaderSpan]) -> Verdict
    requires length { head.now.len ≤ LONGEST_HEAD }
    requires method { IsWithin (length part.now) head.now.method }
    requires fields { All (IsHeaderWithin (length part.now)) fields.now }
    ensures { result ≡ verdict_of (record {
      length = head.now.len;
      method = span_bytes part.now head.now.method;
      minor = head.now.version;
      headers = map (header_bytes part.now) fields.now;
    }) }
{
    let known = KnownFields::from_spans(part, fields);
    let framing = Framing::of(known, part, fields);
    let wishes = Wishes::of(head.version, known);
    if wishes.lacks_host {
        return Verdict::Refuses(BAD_REQUEST);
    }
    if framing.is_unclear() {
        return Verdict::Refuses(BAD_REQUEST);
    }
    if head.method.of(part) != b"POST".as_slice() {
        return Verdict::Refuses(METHOD_NOT_ALLOWED);
    }
    match framing.stated {
        Stated::Length(body) if body <= LONGEST_BODY => Verdict::Admits(Admission {
            head: head.len as u32,
            body,
            close: wishes.close,
            interim: wishes.interim,
        }),
        Stated::Length(_) => Verdict::Refuses(CONTENT_TOO_LARGE),
        Stated::Nothing | Stated::Unclear => Verdict::Refuses(LENGTH_REQUIRED),
    }
}
