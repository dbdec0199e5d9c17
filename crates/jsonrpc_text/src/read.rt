ghost use Rattle.std.specs.Prelude.{◌≡◌, IfOk, option_map};
ghost use Rattle.std.specs.Option.{option_copied};
ghost use Rattle.serde_json.specs.View.{view, items_view, number_view};
ghost use Rattle.jsonrpc_text.specs.Posted as spec;

use crate::from_json::params_tree;
use crate::message::{Early, Id, Read, ReadCall};
use jolie_trees::{Text, Tree};
use serde_json::{Number, Value};
use sqlite_items::Items;
use std::alloc::{AllocError, Global};

/// The longest text that is read as JSON, in bytes.
const LONGEST: usize = 65_536;

/// Reads what a JSON-RPC 2.0 text posts. A text above 65,536 bytes is not read as JSON: it is no
/// request, and neither are an empty array and a value of another form. An array that is not empty is
/// a batch.
pub fn read_message(alloc: Global, bytes: &[u8]) -> Result<Read, AllocError>
    ensures { IfOk result (λ read. read ≡ spec.posted bytes.now) }
{
    if bytes.len() > LONGEST {
        return one(alloc, refused(Id::Null, Early::Invalid));
    }
    match value_of(alloc, bytes)? {
        None => one(alloc, refused(Id::Null, Early::Parse)),
        Some(value) => posted_in(alloc, &value),
    }
}

/// The JSON value of a text, none where it is not UTF-8 or no JSON text.
pub fn value_of(alloc: Global, bytes: &[u8]) -> Result<Option<Value>, AllocError>
    ensures { IfOk result (λ value. option_map view value ≡ spec.value_of bytes.now) }
{
    let Ok(text) = str::from_utf8(bytes) else {
        return Ok(None);
    };
    match Value::from_str(alloc, text) {
        Ok(value) => Ok(Some(value)),
        Err(error) => if error.is_memory() {
            Err(AllocError)
        } else {
            Ok(None)
        },
    }
}

/// What a value posts.
fn posted_in(alloc: Global, value: &Value) -> Result<Read, AllocError>
    ensures { IfOk result (λ read. read ≡ spec.posted_in (view value.now)) }
{
    match value {
        Value::Array(items) => match items.as_slice() {
            [] => one(alloc, refused(Id::Null, Early::Invalid)),
            items => batch(alloc, items),
        },
        Value::Null | Value::Bool(_) | Value::Number(_) | Value::String(_) | Value::Object(_) =>
            one(alloc, call_of(alloc, value)?),
    }
}

/// One call that is no batch.
fn one(alloc: Global, call: ReadCall) -> Result<Read, AllocError>
    ensures { IfOk result (λ read. read ≡ spec.one call) }
{
    let mut calls = Items::new(alloc);
    calls.push(call)?;
    Ok(Read {
        batch: false,
        calls,
    })
}

/// The calls of an array, which are a batch.
fn batch(alloc: Global, items: &[Value]) -> Result<Read, AllocError>
    ensures { IfOk result (λ read. read ≡ spec.batch_of (items_view items.now)) }
{
    let calls = calls_of(alloc, items)?;
    Ok(Read { batch: true, calls })
}

/// The calls of the items of an array, in order.
fn calls_of(alloc: Global, items: &[Value]) -> Result<Items<ReadCall>, AllocError>
    ensures { IfOk result (λ calls. calls ≡ spec.calls_in (items_view items.now)) }
{
    let mut calls = Items::new(alloc);
    for item in items {
        calls.push(call_of(alloc, item)?)?;
    }
    Ok(calls)
}

/// A call that is refused.
fn refused(id: Id, early: Early) -> ReadCall
    ensures { result ≡ spec.refused id early }
{
    ReadCall {
        id,
        what: Err(early),
    }
}

/// The call that a value is.
fn call_of(alloc: Global, value: &Value) -> Result<ReadCall, AllocError>
    ensures { IfOk result (λ call. call ≡ spec.call_in (view value.now)) }
{
    let Some(method) = value.get("method").and_then(Value::as_str) else {
        return invalid(alloc, value);
    };
    let Some(id) = id_of_member(alloc, value.get("id"))? else {
        return invalid(alloc, value);
    };
    let params = value.get("params");
    if !has_version(value) {
        return invalid(alloc, value);
    }
    if !are_params_of(params) {
        return invalid(alloc, value);
    }
    let what = what_of(alloc, method, params_tree(alloc, params)?)?;
    Ok(ReadCall { id, what })
}

/// A value that is no call, with its id where that is a valid one.
fn invalid(alloc: Global, value: &Value) -> Result<ReadCall, AllocError>
    ensures { IfOk result (λ call. call ≡ spec.invalid (spec.id_or_null (view value.now))) }
{
    Ok(refused(id_or_null_of(alloc, value)?, Early::Invalid))
}

/// The method of a call and the tree of its params, or that they make none.
fn what_of(
    alloc: Global,
    method: &str,
    tree: Option<Tree>,
) -> Result<Result<(Text, Tree), Early>, AllocError>
    ensures { IfOk result (λ what. what ≡ spec.what_of method.now tree) }
{
    match tree {
        None => Ok(Err(Early::Params)),
        Some(tree) => Ok(Ok((Text::new(alloc, method)?, tree))),
    }
}

/// Whether a call or a response names version 2.0.
pub fn has_version(value: &Value) -> bool
    ensures { result ≡ spec.is_version (view value.now) }
{
    match value.get("jsonrpc").and_then(Value::as_str) {
        None => false,
        Some(version) => version == "2.0",
    }
}

/// Params are absent, null, an object or an array.
fn are_params_of(params: Option<&Value>) -> bool
    ensures { result ≡ spec.are_params (option_map view (option_copied params.entry)) }
{
    match params {
        None | Some(Value::Null | Value::Array(_) | Value::Object(_)) => true,
        Some(Value::Bool(_) | Value::Number(_) | Value::String(_)) => false,
    }
}

/// The id of a call, `Id::None` where no member `id` is there; none where it is no valid id.
fn id_of_member(alloc: Global, member: Option<&Value>) -> Result<Option<Id>, AllocError>
    ensures { IfOk result (λ id. id ≡ spec.id_of_member (option_map view (option_copied member.entry))) }
{
    match member {
        None => Ok(Some(Id::None)),
        Some(value) => id_of(alloc, value),
    }
}

/// The id of what is no call: its member `id` where that is a valid id, else null.
fn id_or_null_of(alloc: Global, value: &Value) -> Result<Id, AllocError>
    ensures { IfOk result (λ id. id ≡ spec.id_or_null (view value.now)) }
{
    match value.get("id") {
        None => Ok(Id::Null),
        Some(member) => Ok(id_of(alloc, member)?.unwrap_or(Id::Null)),
    }
}

/// A valid id: a string, an integer from -2^63 to 2^64 - 1, or null.
fn id_of(alloc: Global, value: &Value) -> Result<Option<Id>, AllocError>
    ensures { IfOk result (λ id. id ≡ spec.id_from (view value.now)) }
{
    match value {
        Value::Null => Ok(Some(Id::Null)),
        Value::Number(number) => Ok(number_id(number)),
        Value::String(text) => Ok(Some(Id::Text(Text::new(alloc, text.as_str())?))),
        Value::Bool(_) | Value::Array(_) | Value::Object(_) => Ok(None),
    }
}

/// An integer as an id.
fn number_id(number: &Number) -> Option<Id>
    ensures { result ≡ spec.id_of_number (number_view number.now) }
{
    match number.as_i64() {
        Some(n) => Some(Id::Int(n)),
        None => match number.as_u64() {
            Some(n) => Some(Id::Big(n)),
            None => None,
        },
    }
}
