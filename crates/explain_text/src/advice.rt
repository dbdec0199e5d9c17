//! What is advised where the place alone does not help.

ghost use Rattle.std.specs.Prelude.{◌≡◌, None, IfOk, MatchBool};
ghost use Rattle.std.specs.List.{list_any};
ghost use Rattle.jolie_tokens.specs.declared.sign.Sign.TheVariants as signs;
ghost use Rattle.jolie_tokens.specs.declared.token.TokenKind.TheVariants as kinds;
ghost use Rattle.explain_text.specs.Advised as spec;
ghost use Rattle.explain_text.specs.Words.{advice_words};

use crate::front::{begins_with, begins_word};
use check_verdicts::Cause;
use explain_hints::Hint;
use explain_places::{before, behind};
use jolie_tokens::{LexError, Sign, Token, TokenKind, lex};
use std::alloc::{AllocError, Global};

/// The bytes of a byte order mark in UTF-8.
const BYTE_ORDER_MARK: [u8; 3] = [0xEF, 0xBB, 0xBF];

/// What a person may have meant.
#[derive(Clone, Copy, Debug, PartialEq, Eq)]
pub enum Advice {
    /// A `;` stands before a `}`, or is wanting before a statement.
    Separator,
    /// A `=>` stands where no handler may.
    Handlers,
    /// An operator stands before a `=`.
    Compound,
    /// It is part of another Jolie.
    Elsewhere,
    /// A `{` stands after what may be an input.
    Braces,
    /// A `(` stands after a dot.
    Computed,
    /// A sign stands between clauses.
    Clauses,
    /// A `{` stands after a protocol.
    Settings,
    /// A `{` stands where a type begins.
    Root,
    /// `void` stands where a value may.
    Void,
    /// A byte order mark stands there.
    ByteOrderMark,
    /// Another token stands where braces alone may.
    Block,
    /// Another token stands where parentheses alone may.
    Parens,
    /// A `{` stands where a `:` may.
    Colon,
    /// A `(` or `@` stands after a value.
    Call,
    /// A `?` stands after a value.
    Choice,
}

impl Advice {
    pub fn words(self) -> &'static str
        ensures { result.now ≡ advice_words self }
    {
        match self {
            Advice::Separator => "`;` stands between two statements, and none after the last",
            Advice::Handlers =>
                "`,` stands between two handlers, and a handler is `Fault => what it does`",
            Advice::Compound => "`y += 1` is `y = y + 1` here",
            Advice::Elsewhere =>
                "another Jolie has this; docs/language.md says under `A file from elsewhere` what to write",
            Advice::Braces =>
                "`with (t) { .a = 1 }` is `t.a = 1` here, `synchronized` is a single service, and after an input without an answer stands `;`",
            Advice::Computed =>
                "a name after `.` is written out: in place of `t.(k)` keep `t.key[i]` and `t.value[i]`, and look for k in a loop",
            Advice::Clauses =>
                "nothing stands between the clauses of a service or the parts of a port: no `,` and no `;`",
            Advice::Settings => "a protocol has no settings here: `protocol: jsonrpc` alone",
            Advice::Root =>
                "a type begins with its root: `type T: void { .. }`, or `type T { .. }` without `:`",
            Advice::Void =>
                "`void` is a type and no value: `is_defined(x)` says whether x is there",
            Advice::ByteOrderMark =>
                "this is a byte order mark: save the file as UTF-8 without one",
            Advice::Block =>
                "braces stand here: `if (x) { .. }`, `while (x) { .. }`, `[ go(x) ] { .. }`; a service has no parameters",
            Advice::Parens =>
                "parentheses stand here: `if (x) { .. }`, `op@Port(x)(y)`, `go(int)(int)`; the faults of `throws` have no `,` between them",
            Advice::Colon =>
                "`:` stands between a word and what it is: `execution: concurrent`, `a: int`, `OneWay: go(int)`",
            Advice::Call =>
                "a value calls nothing: `op@Port(x)(y)` puts the answer into y; there are `int(x)`, `long(x)`, `string(x)` and `is_defined(x)`",
            Advice::Choice => "`y = a ? 1 : 2` is `if (a) { y = 1 } else { y = 2 }` here",
        }
    }
}

/// What is advised of a refusal at a place, where these may stand.
pub fn advice_for(
    alloc: Global,
    text: &[u8],
    cause: Cause,
    at: usize,
    hints: &[Hint],
) -> Result<Option<Advice>, AllocError>
    ensures { IfOk result (λ advised. spec.IsAdvised text.now cause at hints.now advised) }
{
    match cause {
        Cause::Syntax => advice_at(alloc, text, at, hints),
        Cause::TooLong => Ok(None),
        Cause::BadByte => Ok(advised_of_byte(behind(text, at))),
        Cause::OpenString => Ok(None),
        Cause::OpenComment => Ok(None),
        Cause::BadNumber => Ok(None),
        Cause::TooDeep => Ok(None),
        Cause::Check(_) => Ok(None),
    }
}

/// What is advised of a token that may not stand at a place.
#[tactic(auto, using(crate::proofs::Ends::advised_so, crate::proofs::Ends::advised_else))]
fn advice_at(
    alloc: Global,
    text: &[u8],
    at: usize,
    hints: &[Hint],
) -> Result<Option<Advice>, AllocError>
    ensures { IfOk result (λ advised. spec.IsAdvisedAt text.now at hints.now advised) }
{
    match advised_at(text, at, hints) {
        Some(advice) => Ok(Some(advice)),
        None => advice_behind_semicolon(alloc, text, at),
    }
}

/// What is advised by what stands at a place and what may.
fn advised_at(text: &[u8], at: usize, hints: &[Hint]) -> Option<Advice>
    ensures { result ≡ spec.advised_at text.now at hints.now }
{
    let behind_dot = ends_in_dot(before(text, at));
    advised_there(behind_dot, behind(text, at), hints)
}

/// What is advised of a `}` that may not stand at a place: that no `;` stands before it.
#[tactic(auto, using(crate::proofs::Ends::no_brace, crate::proofs::Ends::no_end, crate::proofs::Ends::ended))]
fn advice_behind_semicolon(
    alloc: Global,
    text: &[u8],
    at: usize,
) -> Result<Option<Advice>, AllocError>
    ensures { IfOk result (λ advised. spec.IsAdvisedBy None text.now at advised) }
{
    if !behind(text, at).starts_with("}".as_bytes()) {
        return Ok(None);
    }
    if !ends_in_semicolon(alloc, before(text, at))? {
        return Ok(None);
    }
    Ok(Some(Advice::Separator))
}

/// What is advised by the bytes from a place on and what may stand there, and by whether a dot stands before them.
fn advised_there(behind_dot: bool, rest: &[u8], hints: &[Hint]) -> Option<Advice>
    ensures { result ≡ spec.advised_there behind_dot rest.now hints.now }
{
    if rest.starts_with("=>".as_bytes()) {
        return Some(Advice::Handlers);
    }
    if rest.starts_with("+=".as_bytes()) || rest.starts_with("-=".as_bytes()) {
        return Some(Advice::Compound);
    }
    if behind_dot && rest.starts_with("(".as_bytes()) {
        return Some(Advice::Computed);
    }
    if rest.starts_with("{".as_bytes()) {
        return advised_of_brace(hints);
    }
    advised_of_other(rest, hints)
}

/// What is advised of a `{`: where a statement may end and `(` go on, after a protocol, where a type stands, or for a
/// `:`.
fn advised_of_brace(hints: &[Hint]) -> Option<Advice>
    ensures { result ≡ spec.advised_of_brace hints.now }
{
    if has_separator(hints) && has_opening(hints) {
        return Some(Advice::Braces);
    }
    if has_interfaces(hints) {
        return Some(Advice::Settings);
    }
    if has_type(hints) {
        return Some(Advice::Root);
    }
    if has_colon(hints) {
        return Some(Advice::Colon);
    }
    None
}

/// What is advised of another token: a sign between clauses, `void` for a value, or a further one.
fn advised_of_other(rest: &[u8], hints: &[Hint]) -> Option<Advice>
    ensures { result ≡ spec.advised_of_other rest.now hints.now }
{
    if parts(rest) && has_clause(hints) {
        return Some(Advice::Clauses);
    }
    if begins_with("void", rest) && has_value(hints) {
        return Some(Advice::Void);
    }
    advised_of_token(rest, hints)
}

/// What is advised of a token that is no sign between clauses and no `void`: after a value a call or `?`, or a
/// statement.
fn advised_of_token(rest: &[u8], hints: &[Hint]) -> Option<Advice>
    ensures { result ≡ spec.advised_of_token rest.now hints.now }
{
    if calls(rest) && has_operator(hints) {
        return Some(Advice::Call);
    }
    if rest.starts_with("?".as_bytes()) && has_operator(hints) {
        return Some(Advice::Choice);
    }
    if has_separator(hints) {
        return advised_of_statement(rest);
    }
    advised_of_rest(rest, hints)
}

/// What is advised where no statement ends: of what is from elsewhere, or of a token in the place of a `{` or `(`.
fn advised_of_rest(rest: &[u8], hints: &[Hint]) -> Option<Advice>
    ensures { result ≡ spec.advised_of_rest rest.now hints.now }
{
    if comes_from_elsewhere(hints, rest) {
        return Some(Advice::Elsewhere);
    }
    if is_brace_alone(hints) {
        return Some(Advice::Block);
    }
    if is_parenthesis_alone(hints) {
        return Some(Advice::Parens);
    }
    None
}

/// Whether `(` or `@` stands there.
fn calls(rest: &[u8]) -> bool
    ensures { result ≡ spec.calls rest.now }
{
    rest.starts_with("(".as_bytes()) || rest.starts_with("@".as_bytes())
}

/// Whether `{` may stand, and nothing else.
fn is_brace_alone(hints: &[Hint]) -> bool
    ensures { result ≡ spec.is_brace_alone hints.now }
{
    hints.len() == 1 && has_brace(hints)
}

/// Whether `(` may stand, and nothing else.
fn is_parenthesis_alone(hints: &[Hint]) -> bool
    ensures { result ≡ spec.is_parenthesis_alone hints.now }
{
    hints.len() == 1 && has_opening(hints)
}

/// Whether `{` is among hints.
fn has_brace(hints: &[Hint]) -> bool
    ensures { result ≡ list_any spec.is_brace hints.now }
{
    hints.iter().any(|hint| is_brace(*hint))
}

/// Whether a hint is `{`.
fn is_brace(hint: Hint) -> bool
    ensures { result ≡ spec.is_brace hint }
{
    matches!(hint, Hint::OpenBrace)
}

/// Whether `:` is among hints.
fn has_colon(hints: &[Hint]) -> bool
    ensures { result ≡ list_any spec.is_colon hints.now }
{
    hints.iter().any(|hint| is_colon(*hint))
}

/// Whether a hint is `:`.
fn is_colon(hint: Hint) -> bool
    ensures { result ≡ spec.is_colon hint }
{
    matches!(hint, Hint::Colon)
}

/// Whether an operator is among hints.
fn has_operator(hints: &[Hint]) -> bool
    ensures { result ≡ list_any spec.is_operator hints.now }
{
    hints.iter().any(|hint| is_operator(*hint))
}

/// Whether a hint is an operator.
fn is_operator(hint: Hint) -> bool
    ensures { result ≡ spec.is_operator hint }
{
    matches!(hint, Hint::Operator)
}

/// What is advised of a token before which `;` may stand.
fn advised_of_statement(rest: &[u8]) -> Option<Advice>
    ensures { result ≡ spec.advised_of_statement rest.now }
{
    if begins_statement(rest) {
        return Some(Advice::Separator);
    }
    None
}

/// Whether bytes end in a dot.
fn ends_in_dot(bytes: &[u8]) -> bool
    ensures { result ≡ spec.ends_in_dot bytes.now }
{
    let len = bytes.len();
    len > 0 && bytes[len - 1] == b'.'
}

/// Whether `,` or `;` stands there.
fn parts(rest: &[u8]) -> bool
    ensures { result ≡ spec.parts rest.now }
{
    rest.starts_with(",".as_bytes()) || rest.starts_with(";".as_bytes())
}

/// Whether `;` is among hints.
fn has_separator(hints: &[Hint]) -> bool
    ensures { result ≡ list_any spec.is_semicolon hints.now }
{
    hints.iter().any(|hint| is_separator(*hint))
}

/// Whether a hint is `;`.
fn is_separator(hint: Hint) -> bool
    ensures { result ≡ spec.is_semicolon hint }
{
    matches!(hint, Hint::Semicolon)
}

/// Whether `(` is among hints.
fn has_opening(hints: &[Hint]) -> bool
    ensures { result ≡ list_any spec.opens hints.now }
{
    hints.iter().any(|hint| opens(*hint))
}

/// Whether a hint is `(`.
fn opens(hint: Hint) -> bool
    ensures { result ≡ spec.opens hint }
{
    matches!(hint, Hint::OpenParen)
}

/// Whether a clause of a service is among hints, or a part of a port after its location.
fn has_clause(hints: &[Hint]) -> bool
    ensures { result ≡ list_any spec.is_clause hints.now }
{
    hints.iter().any(|hint| is_clause(*hint))
}

/// Whether a hint is a clause of a service, or a part of a port after its location.
fn is_clause(hint: Hint) -> bool
    ensures { result ≡ spec.is_clause hint }
{
    matches!(hint, Hint::Clause | Hint::Protocol | Hint::Interfaces)
}

/// Whether `interfaces` is among hints.
fn has_interfaces(hints: &[Hint]) -> bool
    ensures { result ≡ list_any spec.is_interfaces hints.now }
{
    hints.iter().any(|hint| is_interfaces(*hint))
}

/// Whether a hint is `interfaces`.
fn is_interfaces(hint: Hint) -> bool
    ensures { result ≡ spec.is_interfaces hint }
{
    matches!(hint, Hint::Interfaces)
}

/// Whether a type after a colon is among hints.
fn has_type(hints: &[Hint]) -> bool
    ensures { result ≡ list_any spec.is_type hints.now }
{
    hints.iter().any(|hint| is_type(*hint))
}

/// Whether a hint is a type after a colon.
fn is_type(hint: Hint) -> bool
    ensures { result ≡ spec.is_type hint }
{
    matches!(hint, Hint::Type)
}

/// Whether a value is among hints.
fn has_value(hints: &[Hint]) -> bool
    ensures { result ≡ list_any spec.is_value hints.now }
{
    hints.iter().any(|hint| is_value(*hint))
}

/// Whether a hint is a value.
fn is_value(hint: Hint) -> bool
    ensures { result ≡ spec.is_value hint }
{
    matches!(hint, Hint::Value)
}

/// Whether a word stands there that may begin a statement.
fn begins_statement(rest: &[u8]) -> bool
    ensures { result ≡ spec.begins_statement rest.now }
{
    begins_word(rest) && !begins_with("instanceof", rest)
}

/// What is advised of a byte with which no token begins.
fn advised_of_byte(rest: &[u8]) -> Option<Advice>
    ensures { result ≡ spec.advised_of_byte rest.now }
{
    if begins_with_mark(rest) {
        return Some(Advice::ByteOrderMark);
    }
    None
}

/// Whether a byte order mark stands there.
fn begins_with_mark(rest: &[u8]) -> bool
    ensures { result ≡ spec.begins_with_mark rest.now }
{
    rest.starts_with(&BYTE_ORDER_MARK)
}

/// Whether what stands there is of a file from elsewhere, where these may stand.
fn comes_from_elsewhere(hints: &[Hint], rest: &[u8]) -> bool
    ensures { result ≡ spec.comes_from_elsewhere hints.now rest.now }
{
    is_elsewhere(rest) || goes_over_names(hints, rest)
}

/// Whether `:` stands there where `)` may.
fn goes_over_names(hints: &[Hint], rest: &[u8]) -> bool
    ensures { result ≡ spec.goes_over_names hints.now rest.now }
{
    rest.starts_with(":".as_bytes()) && has_closing(hints)
}

/// Whether `)` is among hints.
fn has_closing(hints: &[Hint]) -> bool
    ensures { result ≡ list_any spec.closes hints.now }
{
    hints.iter().any(|hint| closes(*hint))
}

/// Whether a hint is `)`.
fn closes(hint: Hint) -> bool
    ensures { result ≡ spec.closes hint }
{
    matches!(hint, Hint::CloseParen)
}

/// Whether a word or sign stands there with which a file from elsewhere goes on.
fn is_elsewhere(rest: &[u8]) -> bool
    ensures { result ≡ spec.is_elsewhere rest.now }
{
    begins_with("include", rest)
        || begins_with("from", rest)
        || begins_with("embed", rest)
        || begins_with("define", rest)
        || begins_with("constants", rest)
        || begins_with("in", rest)
        || begins_with("csets", rest)
        || begins_with("over", rest)
        || rest.starts_with("->".as_bytes())
        || rest.starts_with("#!".as_bytes())
        || names_clause(rest)
}

/// Whether a word stands there with which a clause of a service begins, or a part of a port of another Jolie.
fn names_clause(rest: &[u8]) -> bool
    ensures { result ≡ spec.names_clause rest.now }
{
    begins_with("main", rest)
        || begins_with("execution", rest)
        || begins_with("inputPort", rest)
        || begins_with("outputPort", rest)
        || begins_with("init", rest)
        || begins_with("Location", rest)
        || begins_with("Protocol", rest)
        || begins_with("Interfaces", rest)
}

/// Whether bytes have tokens, of which the last is `;`.
fn ends_in_semicolon(alloc: Global, bytes: &[u8]) -> Result<bool, AllocError>
    ensures { IfOk result
        (λ ends. MatchBool ends (spec.EndsInSemicolon bytes.now) (spec.EndsInSemicolon bytes.now → ⊥)) }
{
    match lex(alloc, bytes) {
        Ok(tokens) => Ok(last_is_semicolon(tokens.as_slice())),
        Err(LexError::TooLong) => Ok(false),
        Err(LexError::BadByte(_)) => Ok(false),
        Err(LexError::OpenString(_)) => Ok(false),
        Err(LexError::OpenComment(_)) => Ok(false),
        Err(LexError::BadNumber(_)) => Ok(false),
        Err(LexError::Memory(cause)) => Err(cause),
    }
}

/// Whether the last of tokens is `;`.
fn last_is_semicolon(tokens: &[Token]) -> bool
    ensures { MatchBool result (spec.LastIsSemicolon tokens.now) (spec.LastIsSemicolon tokens.now → ⊥) }
{
    match tokens.last() {
        Some(last) => is_semicolon(&last.kind),
        None => false,
    }
}

/// Whether a token of a kind is `;`.
fn is_semicolon(kind: &TokenKind) -> bool
    ensures { MatchBool result (kind.now ≡ kinds.Sign signs.Semicolon) (kind.now ≡ kinds.Sign signs.Semicolon → ⊥) }
{
    match kind {
        TokenKind::Sign(sign) => *sign == Sign::Semicolon,
        TokenKind::Word => false,
        TokenKind::Int(_) => false,
        TokenKind::Long(_) => false,
        TokenKind::Str(_) => false,
    }
}
