//! What the history says of a message.

ghost use Rattle.std.specs.Prelude.{◌≡◌};
ghost use Rattle.std.specs.List.{list_any};
ghost use Rattle.office_core.specs.Boxes as boxes;
ghost use Rattle.office_core.specs.Legal as legal;
ghost use Rattle.test_history.specs.Kinds as kinds;

use office_core::{Act, Entry, History, PostReply};

/// Whether a session took a message.
pub fn took(history: &History, session: u32, message: u32) -> bool
    ensures { result ≡ list_any (boxes.takes session message) history.now.entries.items }
{
    history
        .entries
        .iter()
        .any(|entry| takes(session, message, entry))
}

/// Whether a message was taken.
pub fn was_taken(history: &History, message: u32) -> bool
    ensures { result ≡ list_any (kinds.takes_it message) history.now.entries.items }
{
    history.entries.iter().any(|entry| takes_it(message, entry))
}

/// Whether a message was replied to.
pub fn was_replied(history: &History, message: u32) -> bool
    ensures { result ≡ list_any (kinds.replies_to message) history.now.entries.items }
{
    history
        .entries
        .iter()
        .any(|entry| replies_to(message, entry))
}

/// Whether the answer of a message was collected.
pub fn was_collected(history: &History, message: u32) -> bool
    ensures { result ≡ list_any (legal.collects message) history.now.entries.items }
{
    history.entries.iter().any(|entry| collects(message, entry))
}

/// Whether an actor posted a message.
pub fn was_posted(history: &History, actor: u32, message: u32) -> bool
    ensures { result ≡ list_any (legal.posts_as actor message) history.now.entries.items }
{
    history
        .entries
        .iter()
        .any(|entry| posts_as(actor, message, entry))
}

/// Whether it is an entry by which the session took the message.
fn takes(session: u32, message: u32, entry: &Entry) -> bool
    ensures { result ≡ boxes.takes session message entry.now }
{
    match &entry.act {
        Act::Take { message: taken } => session == entry.actor && message == *taken,
        _ => false,
    }
}

/// Whether it is an entry by which the message was taken.
fn takes_it(message: u32, entry: &Entry) -> bool
    ensures { result ≡ kinds.takes_it message entry.now }
{
    match &entry.act {
        Act::Take { message: taken } => message == *taken,
        _ => false,
    }
}

/// Whether it is an entry that replies to the message.
fn replies_to(message: u32, entry: &Entry) -> bool
    ensures { result ≡ kinds.replies_to message entry.now }
{
    match &entry.act {
        Act::Reply {
            message: answered,
            ..
        } => message == *answered,
        _ => false,
    }
}

/// Whether it is an entry by which the answer of the message was collected.
fn collects(message: u32, entry: &Entry) -> bool
    ensures { result ≡ legal.collects message entry.now }
{
    match &entry.act {
        Act::Collect {
            message: collected,
            ..
        } => message == *collected,
        _ => false,
    }
}

/// Whether it is the entry by which the actor posted the message.
fn posts_as(actor: u32, message: u32, entry: &Entry) -> bool
    ensures { result ≡ legal.posts_as actor message entry.now }
{
    match &entry.act {
        Act::Post {
            reply: PostReply::Accepted(posted),
            ..
        } => { actor == entry.actor && message == *posted }
        _ => false,
    }
}
