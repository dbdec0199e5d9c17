ghost use Rattle.std.specs.Prelude.{◌≡◌};
ghost use Rattle.jolie_parse.specs.Words as spec;

/// The words that count in the grammar: five plain ones in their places, and the reserved ones.
#[derive(Clone, Copy, Debug, PartialEq, Eq)]
pub enum Word {
    /// Any other word.
    Plain,
    Location,
    Protocol,
    Interfaces,
    Concurrent,
    Single,
    Type,
    Interface,
    Service,
    InputPort,
    OutputPort,
    Execution,
    Cset,
    Csets,
    Init,
    Main,
    Scope,
    Install,
    Throw,
    Comp,
    /// `cH`
    InnerHandler,
    This,
    NullProcess,
    If,
    Else,
    While,
    For,
    Undef,
    IsDefined,
    True,
    False,
    Void,
    Bool,
    Int,
    Long,
    Str,
    Any,
    Undefined,
    Throws,
    RequestResponse,
    OneWay,
}

/// The words that count, in the order in which they are looked for.
const COUNTED_WORDS: [Word; 40] = [
    Word::Location,
    Word::Protocol,
    Word::Interfaces,
    Word::Concurrent,
    Word::Single,
    Word::Type,
    Word::Interface,
    Word::Service,
    Word::InputPort,
    Word::OutputPort,
    Word::Execution,
    Word::Cset,
    Word::Csets,
    Word::Init,
    Word::Main,
    Word::Scope,
    Word::Install,
    Word::Throw,
    Word::Comp,
    Word::InnerHandler,
    Word::This,
    Word::NullProcess,
    Word::If,
    Word::Else,
    Word::While,
    Word::For,
    Word::Undef,
    Word::IsDefined,
    Word::True,
    Word::False,
    Word::Void,
    Word::Bool,
    Word::Int,
    Word::Long,
    Word::Str,
    Word::Any,
    Word::Undefined,
    Word::Throws,
    Word::RequestResponse,
    Word::OneWay,
];

impl Word {
    /// The word as it is written; nothing of a plain one.
    pub fn as_str(self) -> &'static str
        ensures { result.now ≡ spec.spelling self }
    {
        match self {
            Word::Plain => "",
            Word::Location => "location",
            Word::Protocol => "protocol",
            Word::Interfaces => "interfaces",
            Word::Concurrent => "concurrent",
            Word::Single => "single",
            Word::Type => "type",
            Word::Interface => "interface",
            Word::Service => "service",
            Word::InputPort => "inputPort",
            Word::OutputPort => "outputPort",
            Word::Execution => "execution",
            Word::Cset => "cset",
            Word::Csets => "csets",
            Word::Init => "init",
            Word::Main => "main",
            Word::Scope => "scope",
            Word::Install => "install",
            Word::Throw => "throw",
            Word::Comp => "comp",
            Word::InnerHandler => "cH",
            Word::This => "this",
            Word::NullProcess => "nullProcess",
            Word::If => "if",
            Word::Else => "else",
            Word::While => "while",
            Word::For => "for",
            Word::Undef => "undef",
            Word::IsDefined => "is_defined",
            Word::True => "true",
            Word::False => "false",
            Word::Void => "void",
            Word::Bool => "bool",
            Word::Int => "int",
            Word::Long => "long",
            Word::Str => "string",
            Word::Any => "any",
            Word::Undefined => "undefined",
            Word::Throws => "throws",
            Word::RequestResponse => "RequestResponse",
            Word::OneWay => "OneWay",
        }
    }

    /// The word that is written so.
    #[tactic(auto, unfolding(crate::specs::Words::word_of))]
    pub fn of(spelling: &[u8]) -> Word
        ensures { result ≡ spec.word_of spelling.now }
    {
        match counted(spelling) {
            Some(word) => word,
            None => Word::Plain,
        }
    }
}

/// The word that counts and is written so.
#[tactic(auto, unfolding(crate::specs::Words::counted))]
fn counted(spelling: &[u8]) -> Option<Word>
    ensures { result ≡ spec.counted spelling.now }
{
    COUNTED_WORDS
        .iter()
        .copied()
        .find(|word| word.as_str().as_bytes() == spelling)
}
