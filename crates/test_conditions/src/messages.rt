//! What is asked of messages.

ghost use Rattle.std.specs.Prelude.{◌≡◌, IfOk};
ghost use Rattle.office_core.specs.Answers as answers;
ghost use Rattle.office_core.specs.Boxes as boxes;
ghost use Rattle.office_core.specs.Legal as legal;
ghost use Rattle.office_plain.specs.Replies.{is_port};
ghost use Rattle.office_plain.specs.View.{setting_of, past_in};
ghost use Rattle.test_conditions.specs.Told as spec;

use crate::sessions::is_running;
use office_core::Message;
use office_plain::Office;
use reqresp_book::Origin;
use std::alloc::AllocError;
use test_history::{has_ended, was_collected, was_posted, was_replied, was_taken};

/// What is told of a message that was accepted.
#[derive(Clone, Copy, Debug, PartialEq, Eq)]
pub struct Told {
    pub is_request: bool,
    pub is_running: bool,
    pub was_replied: bool,
    pub has_ended: bool,
    pub was_taken: bool,
}

impl Told {
    /// Whether the message asks for an answer and has none.
    fn has_no_answer(self) -> bool
        ensures { result ≡ spec.open_by self }
    {
        self.is_request
            && self.is_running
            && !self.was_replied
            && !(self.has_ended && !self.was_taken)
    }
}

/// What is told of a message whose answer is to be collected.
#[derive(Clone, Copy, Debug, PartialEq, Eq)]
pub struct Awaited {
    pub was_collected: bool,
    pub came_in: bool,
    pub is_running: bool,
    pub was_posted: bool,
}

impl Awaited {
    /// Whether its answer may be collected.
    fn is_collectable(self) -> bool
        ensures { result ≡ spec.collectable_by self }
    {
        !self.was_collected && self.came_in && (!self.is_running || self.was_posted)
    }
}

/// Whether a session took a message.
pub fn took(office: &Office, session: u32, message: u32) -> bool
    ensures { result ≡ boxes.took (past_in office.now) session message }
{
    test_history::took(office.history(), session, message)
}

/// Whether a message asks for an answer and has none.
pub fn is_open(office: &Office, message: u32) -> Result<bool, AllocError>
    ensures { IfOk result (λ b. b ≡ answers.is_open (setting_of office.now) (past_in office.now) message) }
{
    office.ready()?;
    let Some(noted) = office.kept().messages.get(message as usize) else {
        return Ok(false);
    };
    let history = office.history();
    let told = Told {
        is_request: is_request(office, noted),
        is_running: is_running(office),
        was_replied: was_replied(history, message),
        has_ended: has_ended(history, noted.session),
        was_taken: was_taken(history, message),
    };
    Ok(told.has_no_answer())
}

/// Whether an actor may collect the answer of a message.
pub fn is_collectable(office: &Office, actor: u32, message: u32) -> Result<bool, AllocError>
    ensures { IfOk result (λ b. b ≡ legal.is_collectable (past_in office.now) actor message) }
{
    office.ready()?;
    let Some(noted) = office.kept().messages.get(message as usize) else {
        return Ok(false);
    };
    let history = office.history();
    let awaited = Awaited {
        was_collected: was_collected(history, message),
        came_in: came_in(noted.origin),
        is_running: is_running(office),
        was_posted: was_posted(history, actor, message),
    };
    Ok(awaited.is_collectable())
}

/// Whether a message asks for an answer.
fn is_request(office: &Office, message: &Message) -> bool
    ensures { result ≡ answers.is_request (setting_of office.now) message.now }
{
    match office.program().operation(message.service, message.op) {
        Some(operation) => operation.response.is_some(),
        None => false,
    }
}

/// Whether a message came in at a port.
fn came_in(origin: Origin) -> bool
    ensures { result ≡ is_port origin }
{
    matches!(origin, Origin::Port { .. })
}
