//! What texts post.

use jolie_trees::Tree;
use jsonrpc_text::{Early, Id, Read, ReadCall, read_message};
use std::alloc::{AllocError, Global};
use test_rows::Row;
use test_values::read_tree;

/// What a text posts: its calls, behind `batch` where it is one.
pub fn posted(alloc: Global, text: &[u8]) -> anyhow::Result<String> {
    let read = read_message(alloc, text)?;
    let mut words = String::from_str(alloc, if read.batch { "batch " } else { "" })?;
    for call in read.calls.as_slice() {
        let call = call_words(alloc, call)?;
        words.push_str(call.as_str())?;
    }
    Ok(words)
}

/// A call as its id and its method, or why it is refused.
fn call_words(alloc: Global, call: &ReadCall) -> Result<String, AllocError> {
    let id = id_words(alloc, &call.id)?;
    match &call.what {
        Ok((method, _)) => format!(in alloc; "{id} calls {};", method.as_str()),
        Err(early) => format!(in alloc; "{id} {};", early_words(*early)),
    }
}

fn id_words(alloc: Global, id: &Id) -> Result<String, AllocError> {
    match id {
        Id::Null => String::from_str(alloc, "null"),
        Id::Int(number) => format!(in alloc; "{number}"),
        Id::Big(number) => format!(in alloc; "{number}"),
        Id::Text(text) => format!(in alloc; "'{}", text.as_str()),
        Id::None => String::from_str(alloc, "-"),
    }
}

fn early_words(early: Early) -> &'static str {
    match early {
        Early::Parse => "parse error",
        Early::Invalid => "invalid request",
        Early::Params => "invalid params",
    }
}

/// The text of a row between a part in front and a part behind that are repeated.
pub fn long_text(alloc: Global, row: &Row<'_>) -> anyhow::Result<String> {
    let mut text = String::new(alloc);
    let before = row.text(alloc, "before")?;
    add_repeated(&mut text, before.as_str(), row.number(alloc, "befores")?)?;
    text.push_str(row.text(alloc, "text")?.as_str())?;
    let after = row.text(alloc, "after")?;
    add_repeated(&mut text, after.as_str(), row.number(alloc, "afters")?)?;
    Ok(text)
}

fn add_repeated(text: &mut String, part: &str, times: u32) -> Result<(), AllocError> {
    for _ in 0..times {
        text.push_str(part)?;
    }
    Ok(())
}

/// The tree that params make as it is shown, empty where they make none.
pub fn tree_of_params(alloc: Global, params: &str) -> anyhow::Result<String> {
    let text = format!(in alloc; "{{\"jsonrpc\":\"2.0\",\"method\":\"m\",\"params\":{params}}}")?;
    let read = read_message(alloc, text.as_bytes())?;
    Ok(tree_of_first(alloc, &read)?)
}

fn tree_of_first(alloc: Global, read: &Read) -> Result<String, AllocError> {
    match read.calls.as_slice() {
        [first, ..] => match &first.what {
            Ok((_, tree)) => shown(alloc, tree),
            Err(_) => String::from_str(alloc, ""),
        },
        [] => String::from_str(alloc, "no call"),
    }
}

fn shown(alloc: Global, tree: &Tree) -> Result<String, AllocError> {
    format!(in alloc; "{tree:?}")
}

/// The tree of words as it is shown, empty where there are none.
pub fn shown_tree(alloc: Global, words: &str) -> anyhow::Result<String> {
    if words.is_empty() {
        return Ok(String::new(alloc));
    }
    let tree = read_tree(alloc, words)?;
    Ok(shown(alloc, &tree)?)
}
