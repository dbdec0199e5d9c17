ghost use Rattle.std.specs.Prelude.{◌↔◌, IsTrue, Contains};
ghost use Rattle.jolie_tokens.specs.Reserved.{reserved_words};

/// The words that name nothing, since the language uses them itself.
const RESERVED_WORDS: [&str; 35] = [
    "type",
    "interface",
    "service",
    "inputPort",
    "outputPort",
    "execution",
    "cset",
    "csets",
    "init",
    "main",
    "scope",
    "install",
    "throw",
    "comp",
    "cH",
    "this",
    "nullProcess",
    "if",
    "else",
    "while",
    "for",
    "undef",
    "is_defined",
    "true",
    "false",
    "void",
    "bool",
    "int",
    "long",
    "string",
    "any",
    "undefined",
    "throws",
    "RequestResponse",
    "OneWay",
];

/// Whether a word is reserved.
pub fn is_reserved(word: &str) -> bool
    ensures { IsTrue result ↔ Contains reserved_words word.now }
{
    RESERVED_WORDS.contains(&word)
}
