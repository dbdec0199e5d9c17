//! The tokens of a Jolie text.
//!
//! `lex` gives the words, numbers, strings and signs of a text with their places, or the one refusal that the text has
//! and its place. What a text of tokens is stands in `specs/Pieces.antt`, `specs/Refusals.antt` and `specs/Texts.antt`;
//! that each text has one reading or one refusal, and never both, is the law `texts_have_one_reading`.
#![tactic(auto)]

mod bytes;
mod comment;
mod laws;
mod lex_error;
mod lexeme;
mod lexing;
mod number;
mod reserved;
mod sign;
mod string;
mod token;
mod utf8;
mod word;

pub use laws::texts_have_one_reading;
pub use lex_error::LexError;
pub use lexing::lex;
pub use reserved::is_reserved;
pub use sign::Sign;
pub use token::{Token, TokenKind, Tokens};
