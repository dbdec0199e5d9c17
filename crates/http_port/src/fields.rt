//! What the fields of a head say of the body.
ghost use Rattle.std.specs.Prelude.{◌≡◌, ℕ, ◌++◌, ◌∷◌, [], List, length, map, min, Some, None, if◌then◌else◌, All};
ghost use Rattle.std.specs.Str.Parse.{digits_value};
ghost use Rattle.httparse.specs.Spans.{IsHeaderWithin, header_bytes};
ghost use Rattle.http1.specs.Fields.{known_fields};
ghost use Rattle.http_port.specs.Framing.{is_digits};
ghost use Rattle.http_port.specs.Walks.{stated_after, is_unclear};
ghost use Rattle.http_port.specs.Framing.{framing_of};

use http1::fields::{ContentLength, KnownFields};
use http1::text::eq_ignore_case;
use httparse::spans::HeaderSpan;

/// The longest body.
pub const LONGEST_BODY: u32 = 65_536;

/// What the `Content-Length` fields come to.
#[derive(Clone, Copy)]
pub enum Stated {
    Nothing,
    /// There is one, of this number; one more than the longest body stands for each larger number.
    Length(u32),
    /// There are several, or one that is no number.
    Unclear,
}

impl Stated {
    fn and(self, value: &[u8]) -> Stated
        ensures { result ≡ stated_after self value.now }
    {
        match (self, capped_number(value)) {
            (Stated::Nothing, Some(number)) => Stated::Length(number),
            _ => Stated::Unclear,
        }
    }
}

/// What the fields say of the body.
#[derive(Clone, Copy)]
pub struct Framing {
    pub stated: Stated,
    /// There is a `Transfer-Encoding`.
    pub is_coded: bool,
}

impl Framing {
    /// What the summary of the fields says, where that is enough; else what the fields say, one after another.
    pub fn of(known: KnownFields, head: &[u8], fields: &[HeaderSpan]) -> Framing
        requires known { known ≡ known_fields (map (header_bytes head.now) fields.now) }
        requires fields { All (IsHeaderWithin (length head.now)) fields.now }
        ensures { result ≡ framing_of (map (header_bytes head.now) fields.now) }
    {
        match known.content_length {
            ContentLength::Value(number) if known.framing_fields == 1 => Framing {
                stated: Stated::Length(number.min(u64::from(LONGEST_BODY + 1)) as u32),
                is_coded: false,
            },
            _ => Framing::of_each(head, fields),
        }
    }

    fn of_each(head: &[u8], fields: &[HeaderSpan]) -> Framing
        requires { All (IsHeaderWithin (length head.now)) fields.now }
        ensures { result ≡ framing_of (map (header_bytes head.now) fields.now) }
    {
        let mut framing = Framing {
            stated: Stated::Nothing,
            is_coded: false,
        };
        for field in fields {
            framing.add(field.name.of(head), field.value.of(head));
        }
        framing
    }

    /// Takes one more field into account.
    #[tactic(auto, using(crate::proofs::FieldLemmas::framing_push))]
    fn add(&mut self, name: &[u8], value: &[u8])
        ensures { (before : List (List ℕ × List ℕ)) → self.old ≡ framing_of before
            → self.new ≡ framing_of (before ++ (name.now, value.now) ∷ []) }
    {
        if eq_ignore_case(name, b"content-length") {
            self.stated = self.stated.and(value);
        }
        self.is_coded = self.is_coded || eq_ignore_case(name, b"transfer-encoding");
    }

    /// Whether it is not clear how long the body is, though something is said of it.
    pub(crate) fn is_unclear(self) -> bool
        ensures { result ≡ is_unclear self }
    {
        match self.stated {
            Stated::Nothing => false,
            Stated::Length(_) => self.is_coded,
            Stated::Unclear => true,
        }
    }
}

/// The number that digits write, where they are digits alone. One more than the longest body stands for each larger
/// number.
fn capped_number(digits: &[u8]) -> Option<u32>
    ensures { result ≡ (if is_digits digits.now then Some (min (digits_value 10 digits.now) 65537) else None) }
{
    if digits.is_empty() {
        return None;
    }
    let mut number = 0;
    for digit in digits {
        if !digit.is_ascii_digit() {
            return None;
        }
        number = (number * 10 + u32::from(*digit - b'0')).min(LONGEST_BODY + 1);
    }
    Some(number)
}
