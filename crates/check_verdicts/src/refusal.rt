//! Why a text is refused.

ghost use Rattle.std.specs.Prelude.{◌≡◌, Some, IfOk, string_bytes};
ghost use Rattle.check_verdicts.specs.Verdicts.{check_word as spelled_check, check_line};
ghost use Rattle.check_verdicts.specs.RefusalLines.{stage_word, cause_word, refusal_line, IsLexRefusal, IsParseRefusal};

use jolie_parse::ParseError;
use jolie_tokens::LexError;
use service_check::CheckName;
use std::alloc::{AllocError, Global};
use std::fmt;

/// What refuses a text: its tokens, its grammar, or a check.
#[derive(Clone, Copy, Debug, PartialEq, Eq)]
pub enum Stage {
    Lex,
    Parse,
    Check,
}

impl Stage {
    pub fn as_str(self) -> &'static str
        ensures { result.now ≡ stage_word self }
    {
        match self {
            Stage::Lex => "lex",
            Stage::Parse => "parse",
            Stage::Check => "check",
        }
    }
}

/// What is wrong with a text.
#[derive(Clone, Copy, Debug, PartialEq, Eq)]
pub enum Cause {
    TooLong,
    BadByte,
    OpenString,
    OpenComment,
    BadNumber,
    Syntax,
    TooDeep,
    Check(CheckName),
}

impl Cause {
    pub fn as_str(self) -> &'static str
        ensures { result.now ≡ cause_word self }
    {
        match self {
            Cause::TooLong => "TooLong",
            Cause::BadByte => "BadByte",
            Cause::OpenString => "OpenString",
            Cause::OpenComment => "OpenComment",
            Cause::BadNumber => "BadNumber",
            Cause::Syntax => "Syntax",
            Cause::TooDeep => "TooDeep",
            Cause::Check(name) => check_word(name),
        }
    }
}

/// The word of a check.
fn check_word(name: CheckName) -> &'static str
    ensures { result.now ≡ spelled_check name }
{
    match name {
        CheckName::DuplicateName => "DuplicateName",
        CheckName::UnknownType => "UnknownType",
        CheckName::UnknownPort => "UnknownPort",
        CheckName::UnknownOperation => "UnknownOperation",
        CheckName::WrongKind => "WrongKind",
        CheckName::Uncorrelated => "Uncorrelated",
        CheckName::TwoSets => "TwoSets",
        CheckName::CompOutsideHandler => "CompOutsideHandler",
        CheckName::ChOutsideHandler => "ChOutsideHandler",
        CheckName::NoStart => "NoStart",
        CheckName::InitNotAssignment => "InitNotAssignment",
    }
}

/// Why a text is refused, and the place of the byte that is at fault, counted from 0: that of the first byte too many
/// where the text is too long.
#[derive(Clone, Copy, Debug, PartialEq, Eq)]
pub struct Refusal {
    pub stage: Stage,
    pub cause: Cause,
    pub at: u32,
}

impl Refusal {
    /// The refusal of a text that has no tokens. Want of memory refuses none.
    pub fn by_lex(error: LexError) -> Result<Refusal, AllocError>
        ensures { IfOk result (λ refusal. IsLexRefusal error refusal) }
    {
        let (cause, at) = match error {
            LexError::TooLong => (Cause::TooLong, 1_048_576),
            LexError::BadByte(at) => (Cause::BadByte, at),
            LexError::OpenString(at) => (Cause::OpenString, at),
            LexError::OpenComment(at) => (Cause::OpenComment, at),
            LexError::BadNumber(at) => (Cause::BadNumber, at),
            LexError::Memory(memory) => return Err(memory),
        };
        Ok(Refusal {
            stage: Stage::Lex,
            cause,
            at,
        })
    }

    /// The refusal of tokens that are no file. Want of memory refuses none.
    pub fn by_parse(error: ParseError) -> Result<Refusal, AllocError>
        ensures { IfOk result (λ refusal. IsParseRefusal error refusal) }
    {
        let (cause, at) = match error {
            ParseError::Syntax(at) => (Cause::Syntax, at),
            ParseError::TooDeep(at) => (Cause::TooDeep, at),
            ParseError::Memory(memory) => return Err(memory),
        };
        Ok(Refusal {
            stage: Stage::Parse,
            cause,
            at,
        })
    }

    /// The refusal of a file by a check.
    pub fn by_check(name: CheckName, at: u32) -> Refusal
        ensures { refusal_line result ≡ check_line name at }
    {
        Refusal {
            stage: Stage::Check,
            cause: Cause::Check(name),
            at,
        }
    }

    /// The line that says it.
    pub fn line(&self, alloc: Global) -> Result<String, AllocError>
        ensures { IfOk result (λ line. string_bytes line ≡ refusal_line self.now) }
    {
        format!(in alloc; "{self}")
    }
}

impl fmt::Display for Refusal {
    ghost output = { λ refusal. Some (refusal_line refusal) };

    fn fmt<W: fmt::Write>(&self, f: &mut fmt::Formatter<W>) -> fmt::Result {
        let stage = self.stage.as_str();
        let cause = self.cause.as_str();
        let at = self.at;
        write!(f, "refused {stage} {cause} {at}\n")
    }
}
