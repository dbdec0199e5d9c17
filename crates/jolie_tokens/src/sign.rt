ghost use Rattle.std.specs.Prelude.{◌≡◌};
ghost use Rattle.jolie_tokens.specs.Signs.{sign_bytes, sign_at};

/// A sign of the language.
#[derive(Clone, Copy, Debug, PartialEq, Eq)]
pub enum Sign {
    Arrow,
    Equal,
    NotEqual,
    AtMost,
    AtLeast,
    DeepAssign,
    Increment,
    Decrement,
    And,
    Or,
    OpenBrace,
    CloseBrace,
    OpenParen,
    CloseParen,
    OpenBracket,
    CloseBracket,
    Comma,
    Semicolon,
    Colon,
    Dot,
    Bar,
    Assign,
    Less,
    Greater,
    Plus,
    Minus,
    Star,
    Slash,
    Percent,
    Not,
    Hash,
    At,
    Question,
}

/// The signs in the order in which they are looked for: the longest first.
pub const SIGNS: [Sign; 33] = [
    Sign::Arrow,
    Sign::Equal,
    Sign::NotEqual,
    Sign::AtMost,
    Sign::AtLeast,
    Sign::DeepAssign,
    Sign::Increment,
    Sign::Decrement,
    Sign::And,
    Sign::Or,
    Sign::OpenBrace,
    Sign::CloseBrace,
    Sign::OpenParen,
    Sign::CloseParen,
    Sign::OpenBracket,
    Sign::CloseBracket,
    Sign::Comma,
    Sign::Semicolon,
    Sign::Colon,
    Sign::Dot,
    Sign::Bar,
    Sign::Assign,
    Sign::Less,
    Sign::Greater,
    Sign::Plus,
    Sign::Minus,
    Sign::Star,
    Sign::Slash,
    Sign::Percent,
    Sign::Not,
    Sign::Hash,
    Sign::At,
    Sign::Question,
];

impl Sign {
    /// The sign as it is written.
    pub fn as_str(self) -> &'static str
        ensures { result.now ≡ sign_bytes self }
    {
        match self {
            Sign::Arrow => "=>",
            Sign::Equal => "==",
            Sign::NotEqual => "!=",
            Sign::AtMost => "<=",
            Sign::AtLeast => ">=",
            Sign::DeepAssign => "<<",
            Sign::Increment => "++",
            Sign::Decrement => "--",
            Sign::And => "&&",
            Sign::Or => "||",
            Sign::OpenBrace => "{",
            Sign::CloseBrace => "}",
            Sign::OpenParen => "(",
            Sign::CloseParen => ")",
            Sign::OpenBracket => "[",
            Sign::CloseBracket => "]",
            Sign::Comma => ",",
            Sign::Semicolon => ";",
            Sign::Colon => ":",
            Sign::Dot => ".",
            Sign::Bar => "|",
            Sign::Assign => "=",
            Sign::Less => "<",
            Sign::Greater => ">",
            Sign::Plus => "+",
            Sign::Minus => "-",
            Sign::Star => "*",
            Sign::Slash => "/",
            Sign::Percent => "%",
            Sign::Not => "!",
            Sign::Hash => "#",
            Sign::At => "@",
            Sign::Question => "?",
        }
    }
}

/// The longest sign at the front of a text.
#[tactic(auto, unfolding(crate::specs::Signs::sign_at))]
pub fn sign_at(text: &[u8]) -> Option<Sign>
    ensures { result ≡ sign_at text.now }
{
    SIGNS
        .iter()
        .copied()
        .find(|sign| text.starts_with(sign.as_str().as_bytes()))
}
