//! What a person may be told of what may stand at a place.

ghost use Rattle.std.specs.Prelude.{◌≡◌};
ghost use Rattle.explain_hints.specs.Hints.{words_of, sample_of, said_by};

/// What may stand at a place of a text.
#[derive(Clone, Copy, Debug, PartialEq, Eq)]
pub enum Hint {
    /// A type, an interface or a service.
    Definition,
    /// It may stand where a definition may.
    EndOfFile,
    /// A clause of a service.
    Clause,
    Statement,
    /// An expression, or an operand of one.
    Value,
    /// A word that the language has no use for.
    Name,
    Number,
    QuotedText,
    /// A type after a colon.
    Type,
    /// The type of a request, after which that of the response stands.
    RequestType,
    /// The last type of an operation, or that of a fault.
    LastType,
    Location,
    Protocol,
    Interfaces,
    Concurrent,
    Single,
    RequestResponse,
    OneWay,
    Throws,
    This,
    Else,
    If,
    /// What stands between two operands.
    Operator,
    OpenBrace,
    CloseBrace,
    OpenParen,
    CloseParen,
    OpenBracket,
    CloseBracket,
    Comma,
    Semicolon,
    Bar,
    Colon,
    Dot,
    Assign,
    DeepAssign,
    Increment,
    Decrement,
    Arrow,
    At,
    Question,
    Star,
}

/// The hints, in the order in which they are told.
pub const HINTS: [Hint; 42] = [
    Hint::Definition,
    Hint::EndOfFile,
    Hint::Clause,
    Hint::Statement,
    Hint::Value,
    Hint::Name,
    Hint::Number,
    Hint::QuotedText,
    Hint::Type,
    Hint::RequestType,
    Hint::LastType,
    Hint::Location,
    Hint::Protocol,
    Hint::Interfaces,
    Hint::Concurrent,
    Hint::Single,
    Hint::RequestResponse,
    Hint::OneWay,
    Hint::Throws,
    Hint::This,
    Hint::Else,
    Hint::If,
    Hint::Operator,
    Hint::OpenBrace,
    Hint::CloseBrace,
    Hint::OpenParen,
    Hint::CloseParen,
    Hint::OpenBracket,
    Hint::CloseBracket,
    Hint::Comma,
    Hint::Semicolon,
    Hint::Bar,
    Hint::Colon,
    Hint::Dot,
    Hint::Assign,
    Hint::DeepAssign,
    Hint::Increment,
    Hint::Decrement,
    Hint::Arrow,
    Hint::At,
    Hint::Question,
    Hint::Star,
];

impl Hint {
    /// The hint as a person reads it.
    pub fn words(self) -> &'static str
        ensures { result.now ≡ words_of self }
    {
        match self {
            Hint::Definition => "a definition as `service`",
            Hint::EndOfFile => "the end of the file",
            Hint::Clause => "a clause as `main`",
            Hint::Statement => "a statement",
            Hint::Value => "a value",
            Hint::Name => "a name",
            Hint::Number => "a number",
            Hint::QuotedText => "a text in quotes",
            Hint::Type => "a type as `int`",
            Hint::RequestType => "a type as `int`",
            Hint::LastType => "a type as `int`",
            Hint::Location => "`location`",
            Hint::Protocol => "`protocol`",
            Hint::Interfaces => "`interfaces`",
            Hint::Concurrent => "`concurrent`",
            Hint::Single => "`single`",
            Hint::RequestResponse => "`RequestResponse`",
            Hint::OneWay => "`OneWay`",
            Hint::Throws => "`throws`",
            Hint::This => "`this`",
            Hint::Else => "`else`",
            Hint::If => "`if`",
            Hint::Operator => "an operator as `+`",
            Hint::OpenBrace => "`{`",
            Hint::CloseBrace => "`}`",
            Hint::OpenParen => "`(`",
            Hint::CloseParen => "`)`",
            Hint::OpenBracket => "`[`",
            Hint::CloseBracket => "`]`",
            Hint::Comma => "`,`",
            Hint::Semicolon => "`;`",
            Hint::Bar => "`|`",
            Hint::Colon => "`:`",
            Hint::Dot => "`.`",
            Hint::Assign => "`=`",
            Hint::DeepAssign => "`<<`",
            Hint::Increment => "`++`",
            Hint::Decrement => "`--`",
            Hint::Arrow => "`=>`",
            Hint::At => "`@`",
            Hint::Question => "`?`",
            Hint::Star => "`*`",
        }
    }

    /// A sample of it: bytes that may stand there and nowhere else, so far as the grammar has such. What begins alike
    /// and is something else goes on otherwise, so that some samples have more than one word.
    pub fn sample(self) -> &'static str
        ensures { result.now ≡ sample_of self }
    {
        match self {
            Hint::Definition => "type x:",
            Hint::EndOfFile => "type x:",
            Hint::Clause => "main {",
            Hint::Statement => "while (",
            Hint::Value => "1L",
            Hint::Name => "x",
            Hint::Number => "1",
            Hint::QuotedText => "\"\"",
            Hint::Type => "void {",
            Hint::RequestType => "void)(void) OneWay: x(",
            Hint::LastType => "void) OneWay: x(",
            Hint::Location => "location: \"\"",
            Hint::Protocol => "protocol: x interfaces: x, x }",
            Hint::Interfaces => "interfaces: x, x }",
            Hint::Concurrent => "concurrent main {",
            Hint::Single => "single main {",
            Hint::RequestResponse => "RequestResponse: x(",
            Hint::OneWay => "OneWay: x(",
            Hint::Throws => "throws x(",
            Hint::This => "this =>",
            Hint::Else => "else {",
            Hint::If => "if (",
            Hint::Operator => "&&",
            Hint::OpenBrace => "{",
            Hint::CloseBrace => "}",
            Hint::OpenParen => "(",
            Hint::CloseParen => ")",
            Hint::OpenBracket => "[",
            Hint::CloseBracket => "]",
            Hint::Comma => ",",
            Hint::Semicolon => ";",
            Hint::Bar => "|",
            Hint::Colon => ":",
            Hint::Dot => ".",
            Hint::Assign => "=",
            Hint::DeepAssign => "<<",
            Hint::Increment => "++",
            Hint::Decrement => "--",
            Hint::Arrow => "=>",
            Hint::At => "@",
            Hint::Question => "?",
            Hint::Star => "*",
        }
    }

    /// Which hint says it too.
    pub(crate) fn said_by(self) -> SaidBy
        ensures { result ≡ said_by self }
    {
        match self {
            Hint::Definition => SaidBy::Nothing,
            Hint::EndOfFile => SaidBy::Nothing,
            Hint::Clause => SaidBy::Nothing,
            Hint::Statement => SaidBy::Nothing,
            Hint::Value => SaidBy::Nothing,
            Hint::Name => SaidBy::ValueOrStatement,
            Hint::Number => SaidBy::Value,
            Hint::QuotedText => SaidBy::Value,
            Hint::Type => SaidBy::Nothing,
            Hint::RequestType => SaidBy::Nothing,
            Hint::LastType => SaidBy::Nothing,
            Hint::Location => SaidBy::Nothing,
            Hint::Protocol => SaidBy::Nothing,
            Hint::Interfaces => SaidBy::Nothing,
            Hint::Concurrent => SaidBy::Nothing,
            Hint::Single => SaidBy::Nothing,
            Hint::RequestResponse => SaidBy::Nothing,
            Hint::OneWay => SaidBy::Nothing,
            Hint::Throws => SaidBy::Nothing,
            Hint::This => SaidBy::Nothing,
            Hint::Else => SaidBy::Nothing,
            Hint::If => SaidBy::Statement,
            Hint::Operator => SaidBy::Nothing,
            Hint::OpenBrace => SaidBy::ValueOrStatement,
            Hint::CloseBrace => SaidBy::Nothing,
            Hint::OpenParen => SaidBy::Value,
            Hint::CloseParen => SaidBy::Nothing,
            Hint::OpenBracket => SaidBy::Statement,
            Hint::CloseBracket => SaidBy::Nothing,
            Hint::Comma => SaidBy::Nothing,
            Hint::Semicolon => SaidBy::Nothing,
            Hint::Bar => SaidBy::Nothing,
            Hint::Colon => SaidBy::Nothing,
            Hint::Dot => SaidBy::Nothing,
            Hint::Assign => SaidBy::Nothing,
            Hint::DeepAssign => SaidBy::Nothing,
            Hint::Increment => SaidBy::Nothing,
            Hint::Decrement => SaidBy::Nothing,
            Hint::Arrow => SaidBy::Nothing,
            Hint::At => SaidBy::Nothing,
            Hint::Question => SaidBy::Nothing,
            Hint::Star => SaidBy::Operator,
        }
    }
}

/// Another hint that says what a hint says.
#[derive(Clone, Copy, Debug, PartialEq, Eq)]
pub enum SaidBy {
    Nothing,
    Value,
    Statement,
    ValueOrStatement,
    Operator,
}
