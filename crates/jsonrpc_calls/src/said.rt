//! What a response says.
ghost use Rattle.std.specs.Prelude.{◌≡◌, IfOk, option_map};
ghost use Rattle.std.specs.Option.{option_copied};
ghost use Rattle.serde_json.specs.View.{view};
ghost use Rattle.jsonrpc_calls.specs.Heard as spec;

use crate::reason::reason_of;
use behaviour_tree::Outcome;
use jolie_trees::{Text, Tree};
use jsonrpc_text::{has_version, tree_in};
use serde_json::Value;
use std::alloc::{AllocError, Global};

/// The code of an error that is a fault.
const FAULT: i64 = -32_000;

/// What a value says to an id, none where it is no response of version 2.0 to it.
pub fn said_to(alloc: Global, value: &Value, id: u64) -> Result<Option<Outcome>, AllocError>
    ensures { IfOk result (λ outcome. outcome ≡ spec.said_to id (view value.now)) }
{
    if !has_version(value) {
        return Ok(None);
    }
    if !is_to(value, id) {
        return Ok(None);
    }
    let outcome = said_by(alloc, value.get("error"), value.get("result"))?;
    Ok(outcome)
}

/// Whether a response has an id as its own, as an integer.
fn is_to(value: &Value, id: u64) -> bool
    ensures { result ≡ spec.is_to id (view value.now) }
{
    match value.get("id").and_then(Value::as_u64) {
        None => false,
        Some(found) => found == id,
    }
}

/// What a response says by its error, or by its result where its error is absent or null.
fn said_by(
    alloc: Global,
    error: Option<&Value>,
    found: Option<&Value>,
) -> Result<Option<Outcome>, AllocError>
    ensures { IfOk result
        (λ outcome. outcome ≡ spec.said_by (option_map view (option_copied error.entry))
        (option_map view (option_copied found.entry))) }
{
    let Some(error) = error else {
        return value_said(alloc, found);
    };
    if error.is_null() {
        return value_said(alloc, found);
    }
    error_said(alloc, error)
}

/// The value of a result, none where there is no result or it makes no tree.
fn value_said(alloc: Global, found: Option<&Value>) -> Result<Option<Outcome>, AllocError>
    ensures { IfOk result (λ outcome. outcome ≡ spec.value_said (option_map view (option_copied found.entry))) }
{
    let Some(found) = found else {
        return Ok(None);
    };
    match tree_in(alloc, found)? {
        None => Ok(None),
        Some(tree) => Ok(Some(Outcome::Value(tree))),
    }
}

/// What an error says, none where its code is no integer of 64 bits or its message no string.
fn error_said(alloc: Global, error: &Value) -> Result<Option<Outcome>, AllocError>
    ensures { IfOk result (λ outcome. outcome ≡ spec.error_said (view error.now)) }
{
    let Some(code) = error.get("code").and_then(Value::as_i64) else {
        return Ok(None);
    };
    let Some(message) = error.get("message").and_then(Value::as_str) else {
        return Ok(None);
    };
    error_by(alloc, code, message, error.get("data"))
}

/// What an error of a code and a message says, none where its data makes no tree.
#[tactic(auto, using(crate::proofs::Codes::unequal))]
fn error_by(
    alloc: Global,
    code: i64,
    message: &str,
    detail: Option<&Value>,
) -> Result<Option<Outcome>, AllocError>
    ensures { IfOk result
        (λ outcome. outcome ≡ spec.error_by code message.now (option_map view (option_copied detail.entry))) }
{
    if code != FAULT {
        return Ok(Some(Outcome::Refused(reason_of(code))));
    }
    fault_said(alloc, message, detail)
}

/// The fault of a name with data, none where they make no tree.
fn fault_said(
    alloc: Global,
    name: &str,
    detail: Option<&Value>,
) -> Result<Option<Outcome>, AllocError>
    ensures { IfOk result
        (λ outcome. outcome ≡ spec.fault_said name.now (option_map view (option_copied detail.entry))) }
{
    let name = Text::new(alloc, name)?;
    match data_tree(alloc, detail)? {
        None => Ok(None),
        Some(value) => Ok(Some(Outcome::Fault { name, value })),
    }
}

/// The tree of the data of an error: void where there is none.
fn data_tree(alloc: Global, detail: Option<&Value>) -> Result<Option<Tree>, AllocError>
    ensures { IfOk result (λ tree. tree ≡ spec.data_tree (option_map view (option_copied detail.entry))) }
{
    match detail {
        None => Ok(Some(Tree::void(alloc))),
        Some(value) => tree_in(alloc, value),
    }
}
