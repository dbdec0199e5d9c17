//! The text of a call that goes out.
ghost use Rattle.std.specs.Prelude.{◌≡◌, IfOk, Some, None, false, map, option_map};
ghost use Rattle.std.specs.Option.{option_copied};
ghost use Rattle.serde_json.specs.View.{view};
ghost use Rattle.serde_json.specs.Written.{compact_text, has_float};
ghost use Rattle.behaviour_tree.specs.PartsView.{operation_view, parts_of};
ghost use Rattle.behaviour_tree.specs.View.{type_view};
ghost use Rattle.jsonrpc_calls.specs.CallTexts as spec;
ghost use Rattle.jsonrpc_calls.specs.Walks as walks;

use crate::operation::operation_called;
use behaviour_tree::{Operation, Program, TypeDef};
use jolie_trees::{Text, Tree};
use jsonrpc_text::json_of;
use office_core::Outgoing;
use serde_json::{Value, json};
use std::alloc::{AllocError, Global};

/// The text of a call that goes out: compact, its members in the order of their names. A call that wants no answer
/// has no id, and a void value no params. A call to an operation that its port does not have has no text.
pub fn call_text(alloc: Global, out: &Outgoing, program: &Program) -> Result<Text, AllocError>
    ensures { IfOk result (λ text. text ≡ spec.call (parts_of program.now) out.now) }
{
    let types = program.parts().types.as_slice();
    let text = text_by(alloc, out, operation_called(program, out), types)?;
    Ok(text)
}

/// The text of a call to an operation, empty where there is none.
fn text_by(
    alloc: Global,
    out: &Outgoing,
    operation: Option<&Operation>,
    types: &[TypeDef],
) -> Result<Text, AllocError>
    ensures { IfOk result
        (λ text. text ≡ spec.call_by (map type_view types.now)
        (option_map operation_view (option_copied operation.entry)) out.now) }
{
    match operation {
        None => Ok(Text::from_string(String::new(alloc))),
        Some(operation) => text_to(alloc, out, operation, types),
    }
}

/// The text of a call to an operation.
fn text_to(
    alloc: Global,
    out: &Outgoing,
    operation: &Operation,
    types: &[TypeDef],
) -> Result<Text, AllocError>
    ensures { IfOk result
        (λ text. text ≡ spec.call_to (map type_view types.now) (operation_view operation.now) out.now) }
{
    written(alloc, &call_to(alloc, out, operation, types)?)
}

/// A value as a compact text.
fn written(alloc: Global, value: &Value) -> Result<Text, AllocError>
    ensures { IfOk result (λ text. has_float (view value.now) ≡ false → text ≡ compact_text (view value.now)) }
{
    Ok(Text::from_string(value.to_string(alloc)?))
}

/// A call to an operation as a value.
fn call_to(
    alloc: Global,
    out: &Outgoing,
    operation: &Operation,
    types: &[TypeDef],
) -> Result<Value, AllocError>
    ensures { IfOk result
        (λ value. view value ≡ spec.call_data (map type_view types.now) (operation_view operation.now) out.now) }
{
    let params = params_of(alloc, &out.value, &operation.request, types)?;
    let name = operation.name.as_str();
    if !out.wants {
        let value = notification(alloc, name, params)?;
        return Ok(value);
    }
    let value = request(alloc, call_id(out.session, out.call), name, params)?;
    Ok(value)
}

/// The id of a call of a session.
pub fn call_id(session: u32, call: u32) -> u64
    ensures { result ≡ spec.call_id session call }
{
    u64::from(session) * 4_294_967_296 + u64::from(call)
}

/// The params of a value under the type of its request, none where it is void alone.
fn params_of(
    alloc: Global,
    value: &Tree,
    ty: &TypeDef,
    types: &[TypeDef],
) -> Result<Option<Value>, AllocError>
    ensures { IfOk result
        (λ params. option_map view params ≡ spec.params_of (map type_view types.now) (type_view ty.now) value.now) }
{
    let found = json_of(alloc, value, ty, types)?;
    let params = params_from(alloc, found)?;
    Ok(params)
}

/// The params that the JSON of a value makes: none of null, an object itself, and all else as the one element of an
/// array.
fn params_from(alloc: Global, found: Value) -> Result<Option<Value>, AllocError>
    ensures { IfOk result (λ params. option_map view params ≡ walks.params_from (view found)) }
{
    if found.is_null() {
        return Ok(None);
    }
    if found.is_object() {
        return Ok(Some(found));
    }
    let alone = json!(in alloc; [found])?;
    Ok(Some(alone))
}

/// A request with an id.
fn request(alloc: Global, id: u64, method: &str, params: Option<Value>) -> Result<Value, AllocError>
    ensures { IfOk result (λ value. view value ≡ spec.request (Some id) method.now (option_map view params)) }
{
    match params {
        None => json!(in alloc; {"jsonrpc": "2.0", "id": id, "method": method}),
        Some(params) => json!(in alloc; {
            "jsonrpc": "2.0",
            "id": id,
            "method": method,
            "params": params
        }),
    }
}

/// A request without an id.
fn notification(alloc: Global, method: &str, params: Option<Value>) -> Result<Value, AllocError>
    ensures { IfOk result (λ value. view value ≡ spec.request None method.now (option_map view params)) }
{
    match params {
        None => json!(in alloc; {"jsonrpc": "2.0", "method": method}),
        Some(params) => json!(in alloc; {"jsonrpc": "2.0", "method": method, "params": params}),
    }
}
