//! The services elsewhere that a row's program calls over HTTP.

ghost use Rattle.std.specs.Prelude.{IfOk, IfSome, ◌<◌, length};
ghost use Rattle.outside_dials.specs.Dials.{IsFreshScripted};

use crate::clients::{NEVER, ROOM, number};
use http_link::HttpLink;
use outside_dials::ScriptedDial;
use outside_traits::{Script, ScriptedWire};
use std::alloc::Global;
use test_rows::{Row, TableError};

/// How a row's program calls elsewhere.
pub type Calling = HttpLink<ScriptedDial>;

/// One link: its first call comes to the peer `p` of the row, its second to `q`. Where there is none the call fails.
pub fn links(alloc: Global, row: &Row<'_>) -> Result<Vec<Calling>, TableError>
    ensures { IfOk result (λ links. 0 < length links.items) }
{
    let mut script = Vec::new(alloc);
    script.push(peer(alloc, row, "p", "p_fails")?)?;
    script.push(peer(alloc, row, "q", "q_fails")?)?;
    let mut links = Vec::new(alloc);
    links.push(HttpLink::new(alloc, ScriptedDial::new(alloc, script)))?;
    Ok(links)
}

/// A peer that gives the bytes of its field, of which the call of a number fails where the row has it.
fn peer(
    alloc: Global,
    row: &Row<'_>,
    name: &'static str,
    fails: &'static str,
) -> Result<Option<ScriptedWire>, TableError>
    ensures fresh { IfOk result (λ peer. IfSome peer IsFreshScripted) }
{
    if !row.has(name) {
        return Ok(None);
    }
    let bytes = row.bytes(alloc, name)?;
    let failing = number(alloc, row, fails, NEVER)?;
    let script = Script::new(alloc, &[failing])?;
    Ok(Some(ScriptedWire::new(alloc, bytes.as_slice(), ROOM, ROOM, script)?))
}
