ghost use Rattle.std.specs.Prelude.{◌≡◌, ◌≤◌, IfOk, Some, false};
ghost use Rattle.serde_json.specs.Data.{depth};
ghost use Rattle.serde_json.specs.Read.{read, max_depth};
ghost use Rattle.serde_json.specs.View.{view};
ghost use Rattle.serde_json.specs.Written.{has_float, compact_text};
ghost use Rattle.behaviour_tree.specs.PartsView.{parts_of};
ghost use Rattle.behaviour_tree.specs.View.{type_view};
ghost use Rattle.jsonrpc_text.specs.Responses as spec;

use crate::message::{Early, Id};
use crate::to_json::json_of;
use behaviour_tree::{Outcome, Program, TypeDef};
use jolie_trees::Text;
use serde_json::{Value, json};
use std::alloc::{AllocError, Global};

/// The code of an error that is a fault of a session.
const FAULT: i64 = -32_000;

/// The text of the response to a call that ended so, whose result is written under a type: compact, its members in the
/// order of their names. Only the error of a fault, -32000, has data. An absent id is written as null: that a
/// notification gets no response is up to who calls.
pub fn answer_text(
    alloc: Global,
    id: &Id,
    outcome: &Outcome,
    ty: &TypeDef,
    program: &Program,
) -> Result<Text, AllocError>
    ensures text { IfOk result
        (λ text. text ≡ spec.answer (parts_of program.now).types (type_view ty.now) id.now outcome.now) }
    ensures reads_back { IfOk result
        (λ text. depth (spec.answer_data (parts_of program.now).types (type_view ty.now) id.now outcome.now) ≤
        max_depth → read text ≡ Some (spec.answer_data (parts_of program.now).types (type_view ty.now) id.now
        outcome.now)) }
{
    written(alloc, &response(alloc, id, outcome, ty, program)?)
}

/// The text of the response to what was refused before it was posted: -32700, -32600 or -32602.
pub fn early_text(alloc: Global, id: &Id, early: &Early) -> Result<Text, AllocError>
    ensures text { IfOk result (λ text. text ≡ spec.early_answer id.now early.now) }
    ensures reads_back { IfOk result (λ text. read text ≡ Some (spec.early_data id.now early.now)) }
{
    written(alloc, &refusal(alloc, id, code(*early), message(*early))?)
}

/// The text of the array of texts: the response to a batch of which some call gets one. Of no texts it is `[]`, which
/// JSON-RPC has no place for, so that who calls sends nothing then.
pub fn batch_text(alloc: Global, texts: &[Text]) -> Result<Text, AllocError>
    ensures { IfOk result (λ text. text ≡ spec.batch texts.now) }
{
    let mut batch = String::new(alloc);
    batch.push_str("[")?;
    for (place, text) in texts.iter().enumerate() {
        if place > 0 {
            batch.push_str(",")?;
        }
        batch.push_str(text.as_str())?;
    }
    batch.push_str("]")?;
    Ok(Text::from_string(batch))
}

/// A value as a compact text.
fn written(alloc: Global, value: &Value) -> Result<Text, AllocError>
    ensures text { IfOk result (λ text. has_float (view value.now) ≡ false → text ≡ compact_text (view value.now)) }
    ensures reads_back { IfOk result
        (λ text. depth (view value.now) ≤ max_depth → read text ≡ Some (view value.now)) }
{
    Ok(Text::from_string(value.to_string(alloc)?))
}

/// The response to a call that ended so.
fn response(
    alloc: Global,
    id: &Id,
    outcome: &Outcome,
    ty: &TypeDef,
    program: &Program,
) -> Result<Value, AllocError>
    ensures { IfOk result
        (λ value. view value ≡ spec.answer_data (parts_of program.now).types (type_view ty.now) id.now outcome.now) }
{
    let types = program.parts().types.as_slice();
    match outcome {
        Outcome::Value(tree) => {
            let found = json_of(alloc, tree, ty, types)?;
            result_response(alloc, id, found)
        }
        Outcome::Fault { name, value } => {
            let detail = json_of(alloc, value, &TypeDef::Undefined, types)?;
            let error = fault_error(alloc, name.as_str(), detail)?;
            error_response(alloc, id, error)
        }
        Outcome::Refused(reason) => refusal(alloc, id, reason.code(), reason.message()),
    }
}

/// A response with a result.
fn result_response(alloc: Global, id: &Id, found: Value) -> Result<Value, AllocError>
    ensures { IfOk result (λ value. view value ≡ spec.result_data (spec.id_data id.now) (view found)) }
{
    let id = id_value(alloc, id)?;
    json!(in alloc; {"jsonrpc": "2.0", "id": id, "result": found})
}

/// A response with an error.
fn error_response(alloc: Global, id: &Id, error: Value) -> Result<Value, AllocError>
    ensures { IfOk result (λ value. view value ≡ spec.error_data (spec.id_data id.now) (view error)) }
{
    let id = id_value(alloc, id)?;
    json!(in alloc; {"jsonrpc": "2.0", "id": id, "error": error})
}

/// The error of a fault, with its data.
fn fault_error(alloc: Global, fault: &str, detail: Value) -> Result<Value, AllocError>
    ensures { IfOk result (λ value. view value ≡ spec.full_error spec.fault_code (view detail) fault.now) }
{
    json!(in alloc; {"code": FAULT, "message": fault, "data": detail})
}

/// A response with an error without data.
fn refusal(alloc: Global, id: &Id, code: i64, message: &str) -> Result<Value, AllocError>
    ensures { IfOk result
        (λ value. view value ≡ spec.error_data (spec.id_data id.now) (spec.bare_error code message.now)) }
{
    let error = json!(in alloc; {"code": code, "message": message})?;
    error_response(alloc, id, error)
}

/// An id as a value; an absent one is null.
fn id_value(alloc: Global, id: &Id) -> Result<Value, AllocError>
    ensures { IfOk result (λ value. view value ≡ spec.id_data id.now) }
{
    match id {
        Id::Null | Id::None => Ok(Value::Null),
        Id::Int(n) => Ok(Value::from(*n)),
        Id::Big(n) => Ok(Value::from(*n)),
        Id::Text(text) => Value::try_from_str(alloc, text.as_str()),
    }
}

/// The code of an early refusal.
fn code(early: Early) -> i64
    ensures { result ≡ spec.early_code early }
{
    match early {
        Early::Parse => -32_700,
        Early::Invalid => -32_600,
        Early::Params => -32_602,
    }
}

/// The message of an early refusal.
fn message(early: Early) -> &'static str
    ensures { result.now ≡ spec.early_message early }
{
    match early {
        Early::Parse => "Parse error",
        Early::Invalid => "Invalid Request",
        Early::Params => "Invalid params",
    }
}
