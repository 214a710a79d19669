//! Classes of bytes, and parts of a text.

ghost use Rattle.std.specs.Prelude.{◌≡◌, ◌≤◌, length, take, drop};
ghost use Rattle.ada_lexer.specs.Bytes.{is_letter, is_digit, is_letter_or_digit, is_white, is_printable};

/// The first `len` bytes.
pub fn front(text: &[u8], len: usize) -> &[u8]
    requires { len ≤ length text.now }
    ensures { result.now ≡ take len text.now }
{
    &text[..len]
}

/// The bytes behind the first `len`.
pub fn behind(text: &[u8], len: usize) -> &[u8]
    requires { len ≤ length text.now }
    ensures { result.now ≡ drop len text.now }
{
    &text[len..]
}

pub fn is_letter(b: u8) -> bool
    ensures { result ≡ is_letter b }
{
    b.is_ascii_alphabetic()
}

pub fn is_digit(b: u8) -> bool
    ensures { result ≡ is_digit b }
{
    b.is_ascii_digit()
}

pub fn is_letter_or_digit(b: u8) -> bool
    ensures { result ≡ is_letter_or_digit b }
{
    is_letter(b) || is_digit(b)
}

pub fn is_white(b: u8) -> bool
    ensures { result ≡ is_white b }
{
    b == b' ' || b == b'\t' || b == b'\r' || b == b'\n' || b == 12
}

pub fn is_printable(b: u8) -> bool
    ensures { result ≡ is_printable b }
{
    b >= 32 && b <= 126
}
