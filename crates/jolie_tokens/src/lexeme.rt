use crate::token::TokenKind;

/// What stands at a place of a text: a token, or a blank or a comment, which have no kind; and how many bytes it has.
#[derive(Debug, Drop)]
pub struct Lexeme {
    pub kind: Option<TokenKind>,
    pub len: u32,
}
