//! The line in which a place stands.

ghost use Rattle.std.specs.Prelude.{◌≡◌, ◌≤◌, ◌<◌, ◌-◌, ◌^◌, ◌++◌, length, take, drop};
ghost use Rattle.std.specs.List.{prefix_len, suffix_len};
ghost use Rattle.explain_places.specs.Places as spec;

/// What stands before a place.
#[tactic(auto, using(std::proofs::lemmas::List::take_min))]
pub fn before(text: &[u8], at: usize) -> &[u8]
    ensures value { result.now ≡ take at text.now }
    ensures small { length result.now < 2 ^ 63 }
{
    &text[..at.min(text.len())]
}

/// What stands from a place on.
#[tactic(auto, using(std::proofs::lemmas::List::drop_min))]
pub fn behind(text: &[u8], at: usize) -> &[u8]
    ensures value { result.now ≡ drop at text.now }
    ensures small { length result.now < 2 ^ 63 }
{
    &text[at.min(text.len())..]
}

/// Where the last line of a text begins: behind its last line feed.
fn last_line_start(text: &[u8]) -> usize
    ensures value { result ≡ length text.now - suffix_len spec.is_in_line text.now }
    ensures within { result ≤ length text.now }
{
    let mut start = text.len();
    while start > 0 && text[start - 1] != b'\n' {
        start -= 1;
    }
    start
}

/// How many bytes the first line of a text has.
fn first_line_len(text: &[u8]) -> usize
    ensures value { result ≡ prefix_len spec.is_in_line text.now }
    ensures within { result ≤ length text.now }
{
    text.iter().take_while(|byte| **byte != b'\n').count()
}

/// What stands before a place in its line.
pub(crate) fn before_in_line(text: &[u8], at: usize) -> &[u8]
    ensures value { result.now ≡ spec.before_in_line text.now at }
    ensures small { length result.now < 2 ^ 63 }
{
    let front = before(text, at);
    behind(front, last_line_start(front))
}

/// The line in which a place stands, up to its line feed.
#[tactic(auto, using(crate::proofs::Lines::line_is))]
fn whole_line(text: &[u8], at: usize) -> &[u8]
    ensures { result.now ≡ spec.before_in_line text.now at ++ spec.rest_of_line text.now at }
{
    let front = before(text, at);
    let start = last_line_start(front);
    let len = (front.len() - start) + first_line_len(behind(text, at));
    before(behind(text, start), len)
}

/// A line without the carriage return at its end.
fn without_return(line: &[u8]) -> &[u8]
    ensures { result.now ≡ spec.without_return line.now }
{
    let len = line.len();
    if len > 0 && line[len - 1] == b'\r' {
        return before(line, len - 1);
    }
    line
}

/// The line in which a place stands, without what ends it.
pub fn line_of(text: &[u8], at: usize) -> &[u8]
    ensures { result.now ≡ spec.line_of text.now at }
{
    without_return(whole_line(text, at))
}
