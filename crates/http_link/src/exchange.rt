//! What passes on a wire in a trip.
ghost use Rattle.std.specs.Prelude.{◌≡◌, [], Bool, MatchResult, false};
ghost use Rattle.outside_dials.specs.Dials.{Dials, traffic};
ghost use Rattle.http_link.specs.Steps.{CutOff, Exchanged, Finds};
ghost use Rattle.http_link.specs.Trips.{Exchange, Failing, telling};

use crate::inbox::Inbox;
use crate::receiving::read_response;
use http_port::write_all;
use httparse::spans::Span;
use outside_dials::Dial;
use outside_traits::{Failed, Wire};

/// Dials a location, writes a request there and reads the response: it says where the body is, none where what came is
/// no response. The wire goes back.
pub(crate) fn visit<D: Dial>(
    dial: &mut D,
    location: &str,
    request: &[u8],
    inbox: &mut Inbox,
) -> Result<Option<Span>, Failed>
    requires { inbox.old ≡ [] }
    ensures dialled { Dials (D.told dial.old).dialled (D.told dial.new).dialled location.now }
    ensures visited { MatchResult result
        (λ found. (ended : Bool) × Finds inbox.new ended found
        × Exchange (telling D.blank (D.told dial.new)) request.now inbox.new ended
        × ((D.told dial.new).faults ≡ (D.told dial.old).faults))
        (λ _. Failing request.now (telling D.blank (D.told dial.old)) (telling D.blank (D.told dial.new))) }
{
    let Ok(mut wire) = dial.dial(location) else {
        return Err(Failed);
    };
    let found = exchange(&mut wire, request, inbox);
    dial.back(wire);
    found
}

/// Writes a request and reads the response to it.
fn exchange<W: Wire>(
    wire: &mut W,
    request: &[u8],
    inbox: &mut Inbox,
) -> Result<Option<Span>, Failed>
    requires empty { inbox.old ≡ [] }
    requires open { (W.told wire.old).closed ≡ false }
    ensures { MatchResult result
        (λ found. (ended : Bool) × Finds inbox.new ended found
        × Exchanged (traffic (W.told wire.old)) (traffic (W.told wire.new)) request.now inbox.new ended)
        (λ _. CutOff (traffic (W.told wire.old)) (traffic (W.told wire.new)) request.now) }
{
    match write_all(wire, request) {
        Ok(()) => read_response(wire, inbox),
        Err(Failed) => Err(Failed),
    }
}
