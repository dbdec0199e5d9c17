//! The posting of what a text says.

ghost use Rattle.std.specs.Prelude.{◌≡◌, map, IfOk};
ghost use Rattle.run_theorem.specs.Texts.{call_in, posting_of as posting};
ghost use Rattle.jsonrpc_text.specs.Responses.{early_code};
ghost use Rattle.jsonrpc_postings.specs.Told.{came_for};

use behaviour_tree::{Outcome, Reason};
use jsonrpc_text::{Early, Read, ReadCall};
use office_core::{CallIn, Posted, Posting};
use sqlite_items::Items;
use std::alloc::{AllocError, Global};

/// The posting of what a text says, to the service of a number.
pub fn posting_of(alloc: Global, service: u32, read: &Read) -> Result<Posting, AllocError>
    ensures { IfOk result (λ it. it ≡ posting (came_for service read.now)) }
{
    Ok(Posting {
        calls: calls_of(alloc, service, read.calls.as_slice())?,
    })
}

/// The calls as they come in.
fn calls_of(alloc: Global, service: u32, calls: &[ReadCall]) -> Result<Items<CallIn>, AllocError>
    ensures { IfOk result (λ it. it ≡ map (call_in service) calls.now) }
{
    let mut posted = Items::new(alloc);
    for call in calls {
        posted.push(call_in(service, call)?)?;
    }
    Ok(posted)
}

/// A call as it comes in: a message to post, or the refusal of what is no call.
fn call_in(service: u32, call: &ReadCall) -> Result<CallIn, AllocError>
    ensures { IfOk result (λ it. it ≡ call_in service call.now) }
{
    match &call.what {
        Ok((op, value)) => Ok(CallIn::Post {
            posted: Posted {
                service,
                op: op.copied()?,
                value: value.copied()?,
            },
        }),
        Err(early) => Ok(CallIn::Answered {
            outcome: Outcome::Refused(Reason::Other(code_of(*early))),
        }),
    }
}

/// The code of an early refusal.
fn code_of(early: Early) -> i64
    ensures { result ≡ early_code early }
{
    match early {
        Early::Parse => -32_700,
        Early::Invalid => -32_600,
        Early::Params => -32_602,
    }
}
