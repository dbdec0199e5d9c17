//! The grammar of Jolie texts, and the parser that is proved equal to it.
//!
//! `parse` gives the tree of a text's tokens, or the one refusal that they have and its place. What derives from
//! tokens, and as which tree, stands in `specs/Grammar.antt`, production by production; levels of nesting and where
//! tokens are refused stand in `specs/Levels.antt`. That no tokens derive two trees is the law `tokens_have_one_tree`,
//! and that tokens are a file or stop beginning one at one place is the law `tokens_stop_at_one_place`, and that with
//! any nesting allowed they are a file or have one of the two refusals is the law `tokens_have_an_answer`. Which
//! statements may be left out of what begins a file says the law `statements_may_be_left_out`.
#![tactic(auto)]

mod begun;
mod class;
mod cursor;
mod expression;
mod interface;
mod laws;
mod list;
mod parse_error;
mod parsing;
mod process;
mod service;
mod simple;
mod stop;
mod taken;
mod types;
mod word;

pub use begun::{Beginning, are_next_statements, begin_file};
pub use laws::{
    statements_may_be_left_out, tokens_have_an_answer, tokens_have_one_tree,
    tokens_stop_at_one_place,
};
pub use parse_error::ParseError;
pub use parsing::parse;
