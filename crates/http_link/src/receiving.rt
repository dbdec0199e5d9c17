//! Reading a response.
ghost use Rattle.std.specs.Prelude.{◌≡◌, ◌<◌, ◌≤◌, ◌++◌, [], ℕ, Bool, List, MatchResult, IfOk, false, not, MatchBool, length};
ghost use Rattle.outside_dials.specs.Dials.{traffic};
ghost use Rattle.http_link.specs.Responses.{IsUnfinished};
ghost use Rattle.http_link.specs.Steps.{Finds, Fits, HasHead, Heard, HeardInPart, Knows};
ghost use Rattle.http_link.specs.Trips.{most_read};

use crate::announced::{Announced, Extent, NOTHING, announced_in};
use crate::inbox::Inbox;
use http_port::{LONGEST_BODY, LONGEST_HEAD, START};
use httparse::spans::Span;
use outside_traits::{Failed, Wire};

/// Reads a response, no further than it must, and says where its body is; none where what came is no response.
pub(crate) fn read_response<W: Wire>(
    wire: &mut W,
    inbox: &mut Inbox,
) -> Result<Option<Span>, Failed>
    requires empty { inbox.old ≡ [] }
    requires open { (W.told wire.old).closed ≡ false }
    ensures { MatchResult result
        (λ found. (ended : Bool) × Finds inbox.new ended found
        × Heard (traffic (W.told wire.old)) (traffic (W.told wire.new)) inbox.old inbox.new ended)
        (λ _. HeardInPart (traffic (W.told wire.old)) (traffic (W.told wire.new)) inbox.old inbox.new) }
{
    match read_head(wire, inbox) {
        Ok(announced) => match announced.extent {
            Extent::Refused => Ok(None),
            Extent::Sized(size) => read_sized(wire, inbox, announced.head, size),
            Extent::ToEnd => read_to_end(wire, inbox, announced.head),
        },
        Err(Failed) => Err(Failed),
    }
}

/// Reads until a head part is whole, or there can be none.
fn read_head<W: Wire>(wire: &mut W, inbox: &mut Inbox) -> Result<Announced, Failed>
    requires empty { inbox.old ≡ [] }
    requires open { (W.told wire.old).closed ≡ false }
    ensures heard { MatchResult result
        (λ announced. (ended : Bool) × Knows inbox.new ended announced
        × Heard (traffic (W.told wire.old)) (traffic (W.told wire.new)) inbox.old inbox.new ended)
        (λ _. HeardInPart (traffic (W.told wire.old)) (traffic (W.told wire.new)) inbox.old inbox.new) }
    ensures fits { IfOk result Fits }
    ensures open { (W.told wire.new).closed ≡ false }
{
    let mut scan = START;
    loop {
        if let Some(announced) = announced_in(inbox.as_slice(), &mut scan) {
            return Ok(announced);
        }
        match inbox.fill(wire) {
            Ok(0) => return Ok(NOTHING),
            Ok(_) => {}
            Err(Failed) => return Err(Failed),
        }
    }
}

/// Reads a body of so many bytes, and says where it is; none where no more come before.
fn read_sized<W: Wire>(
    wire: &mut W,
    inbox: &mut Inbox,
    head: usize,
    size: u32,
) -> Result<Option<Span>, Failed>
    requires head { HasHead inbox.old (record { head = head; extent = Extent.Sized size }) }
    requires fits { (head ≤ LONGEST_HEAD) × (size ≤ LONGEST_BODY) }
    requires bounded { length inbox.old ≤ most_read }
    requires open { (W.told wire.old).closed ≡ false }
    ensures { MatchResult result
        (λ found. (ended : Bool) × Finds inbox.new ended found
        × Heard (traffic (W.told wire.old)) (traffic (W.told wire.new)) inbox.old inbox.new ended)
        (λ _. HeardInPart (traffic (W.told wire.old)) (traffic (W.told wire.new)) inbox.old inbox.new) }
{
    let end = head + size as usize;
    match read_to(wire, inbox, end) {
        Ok(true) => Ok(Some(Span { start: head, end })),
        Ok(false) => Ok(None),
        Err(Failed) => Err(Failed),
    }
}

/// Reads a body to the end of what comes, and says where it is; none where it is too long.
fn read_to_end<W: Wire>(
    wire: &mut W,
    inbox: &mut Inbox,
    head: usize,
) -> Result<Option<Span>, Failed>
    requires head { HasHead inbox.old (record { head = head; extent = Extent.ToEnd }) }
    requires fits { head ≤ LONGEST_HEAD }
    requires bounded { length inbox.old ≤ most_read }
    requires open { (W.told wire.old).closed ≡ false }
    ensures { MatchResult result
        (λ found. (ended : Bool) × Finds inbox.new ended found
        × Heard (traffic (W.told wire.old)) (traffic (W.told wire.new)) inbox.old inbox.new ended)
        (λ _. HeardInPart (traffic (W.told wire.old)) (traffic (W.told wire.new)) inbox.old inbox.new) }
{
    match read_to(wire, inbox, head + LONGEST_BODY as usize + 1) {
        Ok(true) => Ok(None),
        Ok(false) => {
            let end = inbox.len();
            Ok(Some(Span { start: head, end }))
        }
        Err(Failed) => Err(Failed),
    }
}

/// Reads until so many bytes are there; it says whether they are, or no more come.
fn read_to<W: Wire>(wire: &mut W, inbox: &mut Inbox, end: usize) -> Result<bool, Failed>
    requires most { end ≤ most_read }
    requires bounded { length inbox.old ≤ most_read }
    requires open { (W.told wire.old).closed ≡ false }
    requires unfinished { (more : List ℕ) → length (inbox.old ++ more) < end → IsUnfinished (inbox.old ++ more) }
    ensures heard { MatchResult result
        (λ there. Heard (traffic (W.told wire.old)) (traffic (W.told wire.new)) inbox.old inbox.new (not there))
        (λ _. HeardInPart (traffic (W.told wire.old)) (traffic (W.told wire.new)) inbox.old inbox.new) }
    ensures there { IfOk result (λ there. MatchBool there (end ≤ length inbox.new) (length inbox.new < end)) }
{
    while inbox.len() < end {
        match inbox.fill(wire) {
            Ok(0) => return Ok(false),
            Ok(_) => {}
            Err(Failed) => return Err(Failed),
        }
    }
    Ok(true)
}
