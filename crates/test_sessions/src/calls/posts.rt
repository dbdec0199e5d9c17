//! Messages that come in at a port.

use behaviour_tree::Reason;
use office_core::PostReply;
use office_plain::Office;
use reqresp_book::Origin;
use std::alloc::{AllocError, Global};
use test_calls::{Line, Words, not_allowed, read_posted, refused, reply_words};
use test_conditions::{acts, works};
use test_values::WordError;

pub fn post(alloc: Global, office: &mut Office, line: Line<'_>) -> Result<String, WordError> {
    let mut words = Words { rest: line.with };
    let (posting, index) = words.pair()?;
    match posted(alloc, office, line.actor, posting, index, words.rest)? {
        Some(reply) => reply_words(alloc, reply),
        None => not_allowed(alloc),
    }
}

pub fn posts(alloc: Global, office: &mut Office, line: Line<'_>) -> Result<String, WordError> {
    let mut words = Words { rest: line.with };
    let (count, posting) = words.pair()?;
    for index in 0..count {
        match posted(alloc, office, line.actor, posting, index, words.rest)? {
            Some(PostReply::Accepted(_)) => {}
            Some(PostReply::Refused(reason)) => return ended(alloc, index, reason),
            None => return not_allowed(alloc),
        }
    }
    Ok(format!(in alloc; "{count} ok")?)
}

pub fn rounds(alloc: Global, office: &mut Office, line: Line<'_>) -> Result<String, WordError> {
    let mut words = Words { rest: line.with };
    let (count, session) = words.pair()?;
    for index in 0..count {
        match posted(alloc, office, line.actor, 0, index, words.rest)? {
            Some(PostReply::Accepted(message)) => {
                if taken(office, session)? != Some(message) {
                    return Ok(format!(in alloc; "{message} was not taken")?);
                }
            }
            Some(PostReply::Refused(reason)) => return ended(alloc, index, reason),
            None => return not_allowed(alloc),
        }
    }
    Ok(format!(in alloc; "{count} ok")?)
}

/// The reply to a post of `D OP VALUE`, none where it may not be made.
fn posted(
    alloc: Global,
    office: &mut Office,
    actor: u32,
    posting: u32,
    index: u32,
    words: &str,
) -> Result<Option<PostReply>, WordError> {
    if !works(office, actor) {
        return Ok(None);
    }
    let posted = read_posted(alloc, words)?;
    let reply = office.post(actor, Origin::Port { posting, index }, posted)?;
    Ok(Some(reply))
}

/// The message of operation 0 that a session takes.
fn taken(office: &mut Office, session: u32) -> Result<Option<u32>, AllocError> {
    if !acts(office, session)? {
        return Ok(None);
    }
    match office.take(session, &[0])? {
        Some(mail) => Ok(Some(mail.message)),
        None => Ok(None),
    }
}

fn ended(alloc: Global, accepted: u32, reason: Reason) -> Result<String, WordError> {
    let refusal = refused(alloc, reason)?;
    Ok(format!(in alloc; "{accepted} ok, then {refusal}")?)
}
