ghost use Rattle.std.specs.Prelude.{◌≡◌, ◌≤◌, ◌^◌, ◌-◌, length, min, take_while};
ghost use Rattle.std.specs.List.{AllPass, list_all, prefix_len};
ghost use Rattle.std.specs.Option.{option_copied};
ghost use Rattle.std.specs.Str.Parse.{digits_value};
ghost use Rattle.behaviour_tree.specs.Locations as spec;
ghost use Rattle.behaviour_tree.specs.Texts as texts;

/// What a local location begins with.
const LOCAL: &str = "local://";

/// What a location of a socket begins with.
const SOCKET: &str = "socket://";

/// The largest number of a port.
const LARGEST_PORT: u32 = 65_535;

/// A text that begins as a local location.
pub fn begins_local(text: &str) -> bool
    ensures { result ≡ spec.begins_local text.now }
{
    behind(LOCAL, text).is_some()
}

/// A location of a local service.
pub fn is_local(text: &str) -> bool
    ensures { result ≡ spec.is_local text.now }
{
    match behind(LOCAL, text) {
        Some(name) => is_local_name(name.as_bytes()),
        None => false,
    }
}

/// A location of a socket.
pub fn is_socket(text: &str) -> bool
    ensures { result ≡ spec.is_socket text.now }
{
    match behind(SOCKET, text) {
        Some(address) => is_address(address.as_bytes()),
        None => false,
    }
}

/// The text behind a beginning, where it has it.
#[tactic(auto, using(crate::proofs::Addresses::stripped))]
fn behind<'a>(beginning: &str, text: &'a str) -> Option<&'a str>
    ensures { option_copied result ≡ spec.behind beginning.now text.now }
{
    text.strip_prefix(beginning)
}

fn is_local_name(text: &[u8]) -> bool
    ensures { result ≡ spec.is_local_name text.now }
{
    !text.is_empty() && is_all_visible(text)
}

/// A host, a port number and a path.
fn is_address(text: &[u8]) -> bool
    ensures { result ≡ spec.is_address text.now }
{
    let (host, rest) = split_host(text);
    !host.is_empty() && is_colon_and_port(rest)
}

/// The bytes of a host in front, and those behind them.
fn split_host(text: &[u8]) -> (&[u8], &[u8])
    ensures host { result.0.now ≡ take_while spec.is_host_byte text.now }
    ensures rest { result.1.now ≡ spec.back spec.is_host_byte text.now }
{
    text.split_at(host_len(text))
}

fn is_colon_and_port(text: &[u8]) -> bool
    ensures { result ≡ spec.is_colon_and_port text.now }
{
    match text {
        [colon, rest @ ..] => *colon == b':' && is_port_and_path(rest),
        [] => false,
    }
}

#[tactic(auto, using(crate::proofs::Addresses::run_passes))]
fn is_port_and_path(text: &[u8]) -> bool
    ensures { result ≡ spec.is_port_and_path text.now }
{
    let (digits, path) = text.split_at(digits_len(text));
    is_port_number(digits) && is_path(path)
}

/// A decimal number from 1 to 65535 without a leading zero.
#[tactic(auto, using(crate::proofs::Addresses::small_when_cut))]
fn is_port_number(digits: &[u8]) -> bool
    requires { AllPass texts.is_digit digits.now }
    ensures { result ≡ spec.is_port_number digits.now }
{
    !digits.is_empty() && has_no_leading_zero(digits) && value_of(digits) <= LARGEST_PORT
}

fn has_no_leading_zero(digits: &[u8]) -> bool
    ensures { result ≡ spec.has_no_leading_zero digits.now }
{
    match digits {
        [first, ..] => *first != b'0',
        [] => true,
    }
}

/// The value of digits, cut at the largest number of 32 bits.
fn value_of(digits: &[u8]) -> u32
    requires { AllPass texts.is_digit digits.now }
    ensures { result ≡ min (digits_value 10 digits.now) (2 ^ 32 - 1) }
{
    let mut value: u32 = 0;
    for digit in digits {
        value = value
            .saturating_mul(10)
            .saturating_add(u32::from(digit.saturating_sub(b'0')));
    }
    value
}

/// Nothing, or `/` and visible bytes.
fn is_path(text: &[u8]) -> bool
    ensures { result ≡ spec.is_path text.now }
{
    match text {
        [slash, rest @ ..] => *slash == b'/' && is_all_visible(rest),
        [] => true,
    }
}

/// How many bytes of a host stand in front.
#[tactic(auto, using(crate::proofs::Addresses::run_is))]
fn host_len(text: &[u8]) -> usize
    ensures value { result ≡ prefix_len spec.is_host_byte text.now }
    ensures within { result ≤ length text.now }
{
    for (place, byte) in text.iter().enumerate() {
        if !is_host_byte(*byte) {
            return place;
        }
    }
    text.len()
}

/// How many digits stand in front.
#[tactic(auto, using(crate::proofs::Addresses::run_is))]
fn digits_len(text: &[u8]) -> usize
    ensures value { result ≡ prefix_len texts.is_digit text.now }
    ensures within { result ≤ length text.now }
{
    for (place, byte) in text.iter().enumerate() {
        if !is_digit(*byte) {
            return place;
        }
    }
    text.len()
}

fn is_all_visible(text: &[u8]) -> bool
    ensures { result ≡ list_all spec.is_visible text.now }
{
    text.iter().all(|byte| is_visible(*byte))
}

fn is_digit(byte: u8) -> bool
    ensures { result ≡ texts.is_digit byte }
{
    byte.is_ascii_digit()
}

/// A letter, a digit, `.`, `-` or `_`.
fn is_host_byte(byte: u8) -> bool
    ensures { result ≡ spec.is_host_byte byte }
{
    byte.is_ascii_uppercase()
        || byte.is_ascii_lowercase()
        || is_digit(byte)
        || byte == b'.'
        || byte == b'-'
        || byte == b'_'
}

/// A byte from `!` to `~`.
fn is_visible(byte: u8) -> bool
    ensures { result ≡ spec.is_visible byte }
{
    byte.is_ascii_graphic()
}
