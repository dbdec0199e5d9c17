//! What comes of a text.

use crate::parse::tree::{place_of_sum, print_within};
use jolie_ast::Ast;
use jolie_parse::parse;
use jolie_tokens::lex;
use std::alloc::{AllocError, Global};

/// A whole text, and what stands in it around that of a row.
#[derive(Clone, Copy)]
pub struct Framed<'a> {
    pub text: &'a str,
    pub before: &'a str,
    pub behind: &'a str,
}

/// What is seen of a tree.
#[derive(Clone, Copy)]
enum Aspect {
    Read,
    Printed,
    Definitions,
    Sum,
}

/// That the text is read, or its refusal.
pub fn verdict(alloc: Global, text: &[u8]) -> Result<String, AllocError> {
    seen(alloc, text, Aspect::Read, "", "")
}

/// What is printed of the text, or its refusal.
pub fn printed(alloc: Global, framed: Framed<'_>) -> Result<String, AllocError> {
    seen(
        alloc,
        framed.text.as_bytes(),
        Aspect::Printed,
        framed.before,
        framed.behind,
    )
}

/// How many definitions the tree of the text has, or its refusal.
pub fn definitions(alloc: Global, framed: Framed<'_>) -> Result<String, AllocError> {
    seen(alloc, framed.text.as_bytes(), Aspect::Definitions, "", "")
}

/// The place of the first operand of the sum that is assigned behind `before`, and how many follow; or the text's
/// refusal.
pub fn sum(alloc: Global, framed: Framed<'_>) -> Result<String, AllocError> {
    seen(
        alloc,
        framed.text.as_bytes(),
        Aspect::Sum,
        framed.before,
        framed.behind,
    )
}

fn seen(
    alloc: Global,
    text: &[u8],
    aspect: Aspect,
    before: &str,
    behind: &str,
) -> Result<String, AllocError> {
    match lex(alloc, text) {
        Ok(tokens) => match parse(alloc, text, &tokens) {
            Ok(ast) => seen_of_tree(alloc, &ast, aspect, before, behind),
            Err(refusal) => format!(in alloc; "{refusal}"),
        },
        Err(refusal) => format!(in alloc; "{refusal}"),
    }
}

fn seen_of_tree(
    alloc: Global,
    ast: &Ast,
    aspect: Aspect,
    before: &str,
    behind: &str,
) -> Result<String, AllocError> {
    match aspect {
        Aspect::Read => String::from_str(alloc, "read"),
        Aspect::Printed => print_within(alloc, ast, before, behind),
        Aspect::Definitions => ast.definitions().len().to_string(alloc),
        Aspect::Sum => place_of_sum(alloc, ast, before),
    }
}

/// What is printed of what is printed of the text: that it is as it is, or the second print.
pub fn again(alloc: Global, framed: Framed<'_>) -> Result<String, AllocError> {
    let once = printed(alloc, framed)?;
    let printed_text = Framed {
        text: once.as_str(),
        before: "",
        behind: "",
    };
    let twice = printed(alloc, printed_text)?;
    if once.as_str() == twice.as_str() {
        String::from_str(alloc, "as it is")
    } else {
        Ok(twice)
    }
}

/// That each text which the text goes beyond is refused, or how much of it is read.
pub fn fronts(alloc: Global, text: &[u8]) -> Result<String, AllocError> {
    for len in 1..text.len() {
        if verdict(alloc, &text[..len])?.as_str() == "read" {
            return format!(in alloc; "{len} bytes are read");
        }
    }
    String::from_str(alloc, "refused")
}
