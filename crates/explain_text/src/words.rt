//! What a person reads of a refusal: what is wrong, and the rule that says so.

ghost use Rattle.std.specs.Prelude.{◌≡◌};
ghost use Rattle.explain_text.specs.Words as spec;

use crate::front::begins_with;
use check_verdicts::Cause;
use explain_places::behind;
use service_check::CheckName;

/// What is wrong.
pub fn words(cause: Cause) -> &'static str
    ensures { result.now ≡ spec.words_of cause }
{
    match cause {
        Cause::TooLong => "the file has more than 1,048,576 bytes",
        Cause::BadByte => "no word, number, text or sign has this byte here",
        Cause::OpenString => "this text has no closing quote",
        Cause::OpenComment => "this comment has no */",
        Cause::BadNumber => "this is no number of the language",
        Cause::Syntax => "this may not stand here",
        Cause::TooDeep => "this opens a 65th level",
        Cause::Check(name) => words_of_check(name),
    }
}

fn words_of_check(name: CheckName) -> &'static str
    ensures { result.now ≡ spec.check_words name }
{
    match name {
        CheckName::DuplicateName => "this name stands here a second time",
        CheckName::UnknownType => "there is no such type or interface, or it leads to no value",
        CheckName::UnknownPort => "there is no such port, or no service at its location",
        CheckName::UnknownOperation => "the port has no such operation",
        CheckName::WrongKind => "this is of another kind than its place asks for",
        CheckName::Uncorrelated =>
            "a message could not find its session, or no set has this variable",
        CheckName::TwoSets => "this type stands in another set too",
        CheckName::CompOutsideHandler => "`comp` stands in no handler",
        CheckName::ChOutsideHandler => "`cH` stands in no handler",
        CheckName::NoStart => "there is no service, or it has nothing to begin with",
        CheckName::InitNotAssignment => "`init` takes no such statement",
    }
}

/// The rule that is broken at a place of a text. Of a token that may not stand there the hints say it.
pub fn rule(cause: Cause, text: &[u8], at: usize) -> &'static str
    ensures { result.now ≡ spec.rule_of cause text.now at }
{
    match cause {
        Cause::TooLong => "a file has at most 1,048,576 bytes",
        Cause::BadByte =>
            "a text is \"..\" with the escapes \\n \\t \\r \\\" \\\\, and outside of it and of comments all is ASCII",
        Cause::OpenString => "a text begins and ends with \", and \\\" is a quote in it",
        Cause::OpenComment => "a comment is /* .. */, or // up to the end of its line",
        Cause::BadNumber =>
            "an int is at most 2147483647, a long at most 9223372036854775807L; there are no fractions",
        Cause::Syntax => "",
        Cause::TooDeep =>
            "brackets, `-` and `!` before operands and `else if` open a level; there are at most 64",
        Cause::Check(name) => rule_of_check(name, behind(text, at)),
    }
}

/// The rule of a check, by the text from its place on.
fn rule_of_check(name: CheckName, rest: &[u8]) -> &'static str
    ensures { result.now ≡ spec.check_rule name rest.now }
{
    match name {
        CheckName::DuplicateName =>
            "in one place each has a name of its own: definitions, ports, fields, operations, handlers",
        CheckName::UnknownType =>
            "a name is that of a type or interface of the file; what a set names is a field with a value",
        CheckName::UnknownPort =>
            "a message goes to a port of its service, and `local://name` is an input port of the file",
        CheckName::UnknownOperation => "a port has the operations of its interfaces",
        CheckName::WrongKind => rule_of_kind(rest),
        CheckName::Uncorrelated => rule_of_set(rest),
        CheckName::TwoSets => "in a service a type stands in one set at most",
        CheckName::CompOutsideHandler =>
            "`comp` stands in a handler of `install`, or of the brackets after a call",
        CheckName::ChOutsideHandler => "`cH` stands in a handler, for the one that it replaces",
        CheckName::NoStart =>
            "a file has a service, a service a `main`, and that of a concurrent one begins with an input",
        CheckName::InitNotAssignment =>
            "`init` sets variables by `=`, `<<`, `++` or `--`, one after another, without `csets`, braces and `|`",
    }
}

/// The rule of what is of another kind than its place asks for, by what stands there: a text, a set, or a name.
fn rule_of_kind(rest: &[u8]) -> &'static str
    ensures { result.now ≡ spec.kind_rule rest.now }
{
    if rest.starts_with("\"".as_bytes()) {
        return "a location is `local://name` or `socket://host:port`, where the host is a name or four numbers as `127.0.0.1` and the port 1 to 65535; a socket has `protocol: jsonrpc`; an index of a message's path is a number";
    }
    if begins_with("cset", rest) {
        return "a set stands in a service with `execution: concurrent`";
    }
    "an answered call is `op@Port(x)(y)`, another `op@Port(x)`; a socket has `protocol: jsonrpc`, `local://` none; an index of a message's path is a number; no port is named `Console`"
}

/// The rule of messages and their sets, by what stands at the place: a use of a variable, a service, or a type in a
/// set.
fn rule_of_set(rest: &[u8]) -> &'static str
    ensures { result.now ≡ spec.set_rule rest.now }
{
    if begins_with("csets", rest) {
        return "after `csets.` stands a variable of a set of the service";
    }
    if begins_with("service", rest) {
        return "an operation of a concurrent service begins a session, or a set names fields of its type";
    }
    "a set that names a field of a type has one of it for each of its variables"
}
