ghost use Rattle.std.specs.Prelude.{◌≡◌};
ghost use Rattle.jolie_parse.specs.Classes.{same, has};

use crate::word::Word;
use jolie_tokens::Sign;

/// The class of a token, by which the grammar goes on.
#[derive(Clone, Copy, Debug, PartialEq, Eq)]
pub enum Class {
    Word(Word),
    Int,
    Long,
    Str,
    Sign(Sign),
}

/// The signs of the brackets that open.
pub const OPEN_BRACKETS: [Class; 3] = [
    Class::Sign(Sign::OpenBrace),
    Class::Sign(Sign::OpenParen),
    Class::Sign(Sign::OpenBracket),
];

/// The words that are not reserved.
pub const IDS: [Class; 6] = [
    Class::Word(Word::Plain),
    Class::Word(Word::Location),
    Class::Word(Word::Protocol),
    Class::Word(Word::Interfaces),
    Class::Word(Word::Concurrent),
    Class::Word(Word::Single),
];

/// All words.
pub const WORDS: [Class; 41] = [
    Class::Word(Word::Plain),
    Class::Word(Word::Location),
    Class::Word(Word::Protocol),
    Class::Word(Word::Interfaces),
    Class::Word(Word::Concurrent),
    Class::Word(Word::Single),
    Class::Word(Word::Type),
    Class::Word(Word::Interface),
    Class::Word(Word::Service),
    Class::Word(Word::InputPort),
    Class::Word(Word::OutputPort),
    Class::Word(Word::Execution),
    Class::Word(Word::Cset),
    Class::Word(Word::Csets),
    Class::Word(Word::Init),
    Class::Word(Word::Main),
    Class::Word(Word::Scope),
    Class::Word(Word::Install),
    Class::Word(Word::Throw),
    Class::Word(Word::Comp),
    Class::Word(Word::InnerHandler),
    Class::Word(Word::This),
    Class::Word(Word::NullProcess),
    Class::Word(Word::If),
    Class::Word(Word::Else),
    Class::Word(Word::While),
    Class::Word(Word::For),
    Class::Word(Word::Undef),
    Class::Word(Word::IsDefined),
    Class::Word(Word::True),
    Class::Word(Word::False),
    Class::Word(Word::Void),
    Class::Word(Word::Bool),
    Class::Word(Word::Int),
    Class::Word(Word::Long),
    Class::Word(Word::Str),
    Class::Word(Word::Any),
    Class::Word(Word::Undefined),
    Class::Word(Word::Throws),
    Class::Word(Word::RequestResponse),
    Class::Word(Word::OneWay),
];

/// The words of the kinds of root.
pub const KINDS: [Class; 6] = [
    Class::Word(Word::Void),
    Class::Word(Word::Bool),
    Class::Word(Word::Int),
    Class::Word(Word::Long),
    Class::Word(Word::Str),
    Class::Word(Word::Any),
];

/// `true` and `false`.
pub const TRUTHS: [Class; 2] = [Class::Word(Word::True), Class::Word(Word::False)];

/// The words of the kinds that a cast gives.
pub const CASTS: [Class; 3] = [
    Class::Word(Word::Int),
    Class::Word(Word::Long),
    Class::Word(Word::Str),
];

/// The signs that stand before an operand.
pub const PREFIXES: [Class; 2] = [Class::Sign(Sign::Minus), Class::Sign(Sign::Not)];

/// `*`, `/` and `%`.
pub const MULTIPLICATIVE: [Class; 3] = [
    Class::Sign(Sign::Star),
    Class::Sign(Sign::Slash),
    Class::Sign(Sign::Percent),
];

/// `+` and `-`.
pub const ADDITIVE: [Class; 2] = [Class::Sign(Sign::Plus), Class::Sign(Sign::Minus)];

/// The signs that compare.
pub const COMPARISONS: [Class; 6] = [
    Class::Sign(Sign::Equal),
    Class::Sign(Sign::NotEqual),
    Class::Sign(Sign::Less),
    Class::Sign(Sign::AtMost),
    Class::Sign(Sign::Greater),
    Class::Sign(Sign::AtLeast),
];

/// `++` and `--`.
pub const COUNTS: [Class; 2] = [Class::Sign(Sign::Increment), Class::Sign(Sign::Decrement)];

/// What an expression may begin with.
pub const EXPRESSION_FIRSTS: [Class; 20] = [
    Class::Sign(Sign::Minus),
    Class::Sign(Sign::Not),
    Class::Int,
    Class::Long,
    Class::Str,
    Class::Word(Word::True),
    Class::Word(Word::False),
    Class::Word(Word::Plain),
    Class::Word(Word::Location),
    Class::Word(Word::Protocol),
    Class::Word(Word::Interfaces),
    Class::Word(Word::Concurrent),
    Class::Word(Word::Single),
    Class::Sign(Sign::Hash),
    Class::Word(Word::IsDefined),
    Class::Word(Word::Int),
    Class::Word(Word::Long),
    Class::Word(Word::Str),
    Class::Sign(Sign::OpenParen),
    Class::Sign(Sign::OpenBrace),
];

/// What a statement may begin with.
pub const STATEMENT_FIRSTS: [Class; 19] = [
    Class::Word(Word::NullProcess),
    Class::Word(Word::Plain),
    Class::Word(Word::Location),
    Class::Word(Word::Protocol),
    Class::Word(Word::Interfaces),
    Class::Word(Word::Concurrent),
    Class::Word(Word::Single),
    Class::Word(Word::Undef),
    Class::Word(Word::Csets),
    Class::Word(Word::If),
    Class::Word(Word::While),
    Class::Word(Word::For),
    Class::Sign(Sign::OpenBracket),
    Class::Word(Word::Scope),
    Class::Word(Word::Install),
    Class::Word(Word::Throw),
    Class::Word(Word::Comp),
    Class::Word(Word::InnerHandler),
    Class::Sign(Sign::OpenBrace),
];

/// What a member of a literal, or a field of a type, may begin with.
pub const MEMBER_FIRSTS: [Class; 42] = [
    Class::Sign(Sign::Dot),
    Class::Word(Word::Plain),
    Class::Word(Word::Location),
    Class::Word(Word::Protocol),
    Class::Word(Word::Interfaces),
    Class::Word(Word::Concurrent),
    Class::Word(Word::Single),
    Class::Word(Word::Type),
    Class::Word(Word::Interface),
    Class::Word(Word::Service),
    Class::Word(Word::InputPort),
    Class::Word(Word::OutputPort),
    Class::Word(Word::Execution),
    Class::Word(Word::Cset),
    Class::Word(Word::Csets),
    Class::Word(Word::Init),
    Class::Word(Word::Main),
    Class::Word(Word::Scope),
    Class::Word(Word::Install),
    Class::Word(Word::Throw),
    Class::Word(Word::Comp),
    Class::Word(Word::InnerHandler),
    Class::Word(Word::This),
    Class::Word(Word::NullProcess),
    Class::Word(Word::If),
    Class::Word(Word::Else),
    Class::Word(Word::While),
    Class::Word(Word::For),
    Class::Word(Word::Undef),
    Class::Word(Word::IsDefined),
    Class::Word(Word::True),
    Class::Word(Word::False),
    Class::Word(Word::Void),
    Class::Word(Word::Bool),
    Class::Word(Word::Int),
    Class::Word(Word::Long),
    Class::Word(Word::Str),
    Class::Word(Word::Any),
    Class::Word(Word::Undefined),
    Class::Word(Word::Throws),
    Class::Word(Word::RequestResponse),
    Class::Word(Word::OneWay),
];

/// What a cardinality begins with.
pub const CARDINALITY_FIRSTS: [Class; 3] = [
    Class::Sign(Sign::Question),
    Class::Sign(Sign::Star),
    Class::Sign(Sign::OpenBracket),
];

/// What the upper bound of a cardinality may be.
pub const MOSTS: [Class; 2] = [Class::Int, Class::Sign(Sign::Star)];

/// The words of the kinds of operation.
pub const OPERATION_KINDS: [Class; 2] = [
    Class::Word(Word::RequestResponse),
    Class::Word(Word::OneWay),
];

/// The words of the kinds of port.
pub const PORT_KINDS: [Class; 2] = [Class::Word(Word::InputPort), Class::Word(Word::OutputPort)];

/// How a service may run its sessions.
pub const EXECUTIONS: [Class; 2] = [Class::Word(Word::Concurrent), Class::Word(Word::Single)];

/// What a clause of a service begins with.
pub const CLAUSE_FIRSTS: [Class; 6] = [
    Class::Word(Word::Execution),
    Class::Word(Word::InputPort),
    Class::Word(Word::OutputPort),
    Class::Word(Word::Cset),
    Class::Word(Word::Init),
    Class::Word(Word::Main),
];

/// What a part of a file begins with.
pub const FILE_PART_FIRSTS: [Class; 3] = [
    Class::Word(Word::Type),
    Class::Word(Word::Interface),
    Class::Word(Word::Service),
];

impl Class {
    pub fn is(self, other: Class) -> bool
        ensures { result ≡ same self other }
    {
        match (self, other) {
            (Class::Word(a), Class::Word(b)) => a == b,
            (Class::Sign(a), Class::Sign(b)) => a == b,
            (Class::Int, Class::Int) => true,
            (Class::Long, Class::Long) => true,
            (Class::Str, Class::Str) => true,
            _ => false,
        }
    }

    /// Whether the class is one of these.
    pub fn is_one_of(self, classes: &[Class]) -> bool
        ensures { result ≡ has classes.now self }
    {
        match classes {
            [] => false,
            [one, rest @ ..] => one.is(self) || self.is_one_of(rest),
        }
    }
}
