//! The text that answers a posting.

ghost use Rattle.std.specs.Prelude.{◌≡◌, ◌++◌, [], ◌∷◌, option_map, IfOk, OnOk, Some};
ghost use Rattle.std.specs.Option.{option_copied};
ghost use Rattle.behaviour_tree.specs.PartsView.{operation_view, parts_of};
ghost use Rattle.run_theorem.specs.Texts.{has_id as asks, operation_of as operation, response_of, sent_by, sent_to};
ghost use Rattle.jsonrpc_postings.specs.Told.{came_for, response_told, texts_told};

use behaviour_tree::{Operation, Outcome, Program, TypeDef};
use jolie_trees::Text;
use jsonrpc_text::{Id, Read, ReadCall, answer_text, batch_text, early_text};
use sqlite_items::Items;
use std::alloc::{AllocError, Global};

/// The text that answers what came in for the service of a number, by what its calls came to; none where nothing is
/// said.
pub fn response_to(
    alloc: Global,
    program: &Program,
    service: u32,
    read: &Read,
    outcomes: &[Outcome],
) -> Result<Option<Text>, AllocError>
    ensures { IfOk result
        (λ text. text ≡ response_told (parts_of program.now) (came_for service read.now) outcomes.now) }
{
    let texts = texts_told(alloc, program, service, read.calls.as_slice(), outcomes)?;
    response_of(alloc, read.batch, texts)
}

/// The texts of the calls that ask for one, in order.
fn texts_told(
    alloc: Global,
    program: &Program,
    service: u32,
    calls: &[ReadCall],
    outcomes: &[Outcome],
) -> Result<Items<Text>, AllocError>
    ensures { IfOk result (λ texts. texts ≡ texts_told (parts_of program.now) service calls.now outcomes.now) }
{
    let mut texts = Items::new(alloc);
    for (call, outcome) in calls.iter().zip(outcomes) {
        put_text(alloc, program, service, call, outcome, &mut texts)?;
    }
    Ok(texts)
}

/// Puts the text of a call, if it asks for one.
fn put_text(
    alloc: Global,
    program: &Program,
    service: u32,
    call: &ReadCall,
    outcome: &Outcome,
    texts: &mut Items<Text>,
) -> Result<(), AllocError>
    ensures { OnOk result (texts.new ≡ texts.old
        ++ sent_to (parts_of program.now) service call.now (Some outcome.now)) }
{
    if !has_id(&call.id) {
        return Ok(());
    }
    texts.push(text_of(alloc, program, service, call, outcome)?)
}

/// What is said of a call: of what is no call its refusal, of another its outcome, written under the type of its
/// operation's answers.
fn text_of(
    alloc: Global,
    program: &Program,
    service: u32,
    call: &ReadCall,
    outcome: &Outcome,
) -> Result<Text, AllocError>
    ensures { IfOk result (λ text. text ∷ [] ≡ sent_by (parts_of program.now) service call.now (Some outcome.now)) }
{
    match &call.what {
        Err(early) => early_text(alloc, &call.id, early),
        Ok((op, _)) => {
            let anything = TypeDef::Undefined;
            let ty = operation_of(program, service, op.as_str())
                .and_then(|operation| operation.response.as_ref())
                .unwrap_or(&anything);
            answer_text(alloc, &call.id, outcome, ty, program)
        }
    }
}

/// The operation of a name of a service.
fn operation_of<'a>(program: &'a Program, service: u32, name: &str) -> Option<&'a Operation>
    ensures { option_map operation_view (option_copied result) ≡ operation (parts_of program.now) service name.now }
{
    let number = program.operation_named(service, name)?;
    program.operation(service, number)
}

/// Whether a call asks for a response: a notification does not.
fn has_id(id: &Id) -> bool
    ensures { result ≡ asks id.now }
{
    match id {
        Id::None => false,
        Id::Null | Id::Int(_) | Id::Big(_) | Id::Text(_) => true,
    }
}

/// The response that texts make, none where there are none.
fn response_of(alloc: Global, batch: bool, texts: Items<Text>) -> Result<Option<Text>, AllocError>
    ensures { IfOk result (λ text. text ≡ response_of batch texts) }
{
    match texts.as_slice() {
        [] => Ok(None),
        [text, ..] => {
            if batch {
                Ok(Some(batch_text(alloc, texts.as_slice())?))
            } else {
                Ok(Some(text.copied()?))
            }
        }
    }
}
