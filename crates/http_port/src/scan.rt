//! The search for the end of a head part, line by line.
ghost use Rattle.std.specs.Prelude.{◌≡◌, false};
ghost use Rattle.memchr.specs.Find.{IsFirstByte, is_byte};
ghost use Rattle.http_port.specs.HeadPart.{is_empty_line, part_length, lines, HoldsScan};
ghost use Rattle.http_port.specs.Walks.{begun_behind};

use memchr::memchr_iter;

/// How far a head part was looked through: whole lines up to `at`, of which one is not empty where it has begun.
#[derive(Clone, Copy)]
pub struct Scan {
    pub at: usize,
    pub begun: bool,
}

/// Before the first line.
pub const START: Scan = Scan {
    at: 0,
    begun: false,
};

impl Scan {
    /// Goes on to the end of the head part, and gives its length; or to the last line that is whole.
    pub fn finish(&mut self, bytes: &[u8]) -> Option<usize>
        requires { HoldsScan bytes.now self.old }
        ensures length { result ≡ part_length false (lines bytes.now) }
        ensures scan { HoldsScan bytes.now self.new }
    {
        while let Some(before) = next_line_feed(&bytes[self.at..]) {
            let end = self.at + before + 1;
            let Some(begun) = begun_behind(self.begun, &bytes[self.at..end]) else {
                return Some(end);
            };
            self.at = end;
            self.begun = begun;
        }
        None
    }
}

/// The place of the next LF, which is near in most heads.
#[tactic(auto, using(crate::proofs::PlaceLemmas::first_by_places))]
fn next_line_feed(bytes: &[u8]) -> Option<usize>
    ensures { IsFirstByte (is_byte 10) bytes.now result }
{
    memchr_iter(b'\n', bytes).next()
}

/// Whether a line that is not empty came, with this one; none where this one ends the head part.
fn begun_behind(begun: bool, line: &[u8]) -> Option<bool>
    ensures { result ≡ begun_behind begun line.now }
{
    let is_empty = is_empty_line(line);
    if begun && is_empty {
        return None;
    }
    Some(begun || !is_empty)
}

/// Whether a line, with the LF that ends it, holds nothing else or CR alone.
fn is_empty_line(line: &[u8]) -> bool
    ensures { result ≡ is_empty_line line.now }
{
    line == b"\n".as_slice() || line == b"\r\n".as_slice()
}
