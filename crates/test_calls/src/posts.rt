//! Messages that come in at a port.

use crate::outcomes::refused;
use crate::values::read_value;
use crate::words::Words;
use jolie_trees::Text;
use office_core::{PostReply, Posted};
use std::alloc::Global;
use test_values::WordError;

/// The message that words are: `D OP VALUE`, to service D.
pub fn read_posted(alloc: Global, words: &str) -> Result<Posted, WordError> {
    let mut words = Words { rest: words };
    let service = words.number()?;
    let op = Text::new(alloc, words.word()?)?;
    let value = read_value(alloc, words.rest)?;
    Ok(Posted { service, op, value })
}

/// What a post answers: `ok M`, the message, or a refusal.
pub fn reply_words(alloc: Global, reply: PostReply) -> Result<String, WordError> {
    match reply {
        PostReply::Accepted(message) => Ok(format!(in alloc; "ok {message}")?),
        PostReply::Refused(reason) => refused(alloc, reason),
    }
}
