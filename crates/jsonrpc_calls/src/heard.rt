//! What is heard of a call by the bytes that came back.
ghost use Rattle.std.specs.Prelude.{◌≡◌, IfOk, Some};
ghost use Rattle.jsonrpc_calls.specs.Heard as spec;

use crate::call::call_id;
use crate::said::said_to;
use behaviour_tree::Outcome;
use jolie_trees::{Text, Tree};
use jsonrpc_text::value_of;
use office_core::Outgoing;
use std::alloc::{AllocError, Global};

/// What bytes say to an id, none where they are no JSON-RPC response to it.
pub fn read_answer(alloc: Global, bytes: &[u8], id: u64) -> Result<Option<Outcome>, AllocError>
    ensures { IfOk result (λ outcome. outcome ≡ spec.answer_to id bytes.now) }
{
    match value_of(alloc, bytes)? {
        None => Ok(None),
        Some(value) => said_to(alloc, &value, id),
    }
}

/// The outcome of a call by the bytes that came back.
pub fn outcome_heard(alloc: Global, out: &Outgoing, bytes: &[u8]) -> Result<Outcome, AllocError>
    ensures { IfOk result (λ outcome. outcome ≡ spec.heard out.now (Some bytes.now)) }
{
    if !out.wants {
        return Ok(Outcome::Value(Tree::void(alloc)));
    }
    let outcome = answer_heard(alloc, bytes, call_id(out.session, out.call))?;
    Ok(outcome)
}

/// The outcome of a call whose trip failed: the fault IOException.
pub fn nothing_heard(alloc: Global) -> Result<Outcome, AllocError>
    ensures { IfOk result (λ outcome. outcome ≡ spec.io_exception) }
{
    let name = Text::new(alloc, "IOException")?;
    let value = Tree::void(alloc);
    Ok(Outcome::Fault { name, value })
}

/// What bytes say to an id, and the fault IOException where they are no response to it.
fn answer_heard(alloc: Global, bytes: &[u8], id: u64) -> Result<Outcome, AllocError>
    ensures { IfOk result (λ outcome. outcome ≡ spec.answer_or_fault id bytes.now) }
{
    match read_answer(alloc, bytes, id)? {
        None => nothing_heard(alloc),
        Some(outcome) => Ok(outcome),
    }
}
