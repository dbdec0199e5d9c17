use crate::sign::Sign;
use jolie_trees::Text;
use sqlite_items::Items;

/// What a token is. A `Str` has the text that is meant, with its escapes resolved.
#[derive(Debug, Drop)]
pub enum TokenKind {
    Word,
    Int(i32),
    Long(i64),
    Str(Text),
    Sign(Sign),
}

/// A token, its first byte's place in the text and how many bytes it is written in.
#[derive(Debug, Drop)]
pub struct Token {
    pub kind: TokenKind,
    pub at: u32,
    pub len: u32,
}

/// The tokens of a text, in its order.
pub type Tokens = Items<Token>;
