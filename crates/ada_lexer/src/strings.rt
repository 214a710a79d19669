//! Strings.

ghost use Rattle.std.specs.Prelude.{◌≡◌, ◌<◌, ◌≤◌, ◌+◌, true, length, position, not};
ghost use Rattle.ada_lexer.specs.Bytes.{is_printable};
ghost use Rattle.ada_lexer.specs.Strings.{string_goes_on, inside_after, string_len, ends_inside, content};

use super::bytes::is_printable;

/// How many bytes behind an opening mark belong to its string, with the closing mark where there is one.
#[tactic(auto, using(crate::proofs::Runs::run_steps))]
pub fn string_len(text: &[u8]) -> usize
    ensures within { result ≤ length text.now }
    ensures is { result ≡ string_len true text.now }
{
    let mut n = 0;
    let mut inside = true;
    while n < text.len() && string_goes_on(inside, text[n]) {
        inside = inside_after(inside, text[n]);
        n += 1;
    }
    n
}

fn string_goes_on(inside: bool, b: u8) -> bool
    ensures { result ≡ string_goes_on inside b }
{
    if inside { b != b'\n' } else { b == b'"' }
}

fn inside_after(inside: bool, b: u8) -> bool
    ensures { result ≡ inside_after inside b }
{
    if inside { b != b'"' } else { true }
}

/// Whether the bytes behind an opening mark end without a closing one.
pub fn ends_inside(text: &[u8]) -> bool
    ensures { result ≡ ends_inside true text.now }
{
    let mut inside = true;
    for b in text {
        inside = inside_after(inside, *b);
    }
    inside
}

/// The length of what a string says, by the bytes behind its opening mark.
pub fn content_len(text: &[u8]) -> usize
    ensures { result ≡ length (content true text.now) }
{
    let mut inside = true;
    let mut count = 0;
    for b in text {
        if !(inside && *b == b'"') {
            count += 1;
        }
        inside = inside_after(inside, *b);
    }
    count
}

/// The first place at which a byte may not stand in a string.
pub fn bad_place(text: &[u8]) -> Option<usize>
    ensures { result ≡ position (λ b. not (is_printable b)) text.now }
{
    text.iter().position(|b| !is_printable(*b))
}
