ghost use Rattle.std.specs.Prelude.{◌≡◌};
ghost use Rattle.jolie_tokens.specs.Bytes as spec;

pub fn is_blank(byte: u8) -> bool
    ensures { result ≡ spec.is_blank byte }
{
    byte == b' ' || byte == b'\t' || byte == b'\r' || byte == b'\n'
}

pub fn is_letter(byte: u8) -> bool
    ensures { result ≡ spec.is_letter byte }
{
    byte.is_ascii_alphabetic() || byte == b'_'
}

pub fn is_digit(byte: u8) -> bool
    ensures { result ≡ spec.is_digit byte }
{
    byte.is_ascii_digit()
}

pub fn is_word_byte(byte: u8) -> bool
    ensures { result ≡ spec.is_word_byte byte }
{
    is_letter(byte) || is_digit(byte)
}

/// Whether a byte after a backslash makes an escape.
pub fn is_escape(byte: u8) -> bool
    ensures { result ≡ spec.is_escape byte }
{
    byte == b'n' || byte == b't' || byte == b'r' || byte == b'"' || byte == b'\\'
}

/// The byte that an escape means.
pub fn meant_byte(byte: u8) -> u8
    ensures { result ≡ spec.meant_byte byte }
{
    match byte {
        b'n' => b'\n',
        b't' => b'\t',
        b'r' => b'\r',
        _ => byte,
    }
}
