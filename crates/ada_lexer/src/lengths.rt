//! How long the piece at the front of a text is.

ghost use Rattle.std.specs.Prelude.{◌≡◌, ◌<◌, ◌≤◌, ◌+◌, length, drop, slice_index};
ghost use Rattle.ada_lexer.specs.Bytes.{is_letter, is_digit, is_letter_or_digit, is_white, run_len};
ghost use Rattle.ada_lexer.specs.Strings.{string_len};
ghost use Rattle.ada_lexer.specs.Pieces.{word_goes_on, number_goes_on, comment_goes_on};
ghost use Rattle.ada_lexer.specs.Lengths.{piece_len, mark_len, IsMeasured};

use super::bytes::{behind, is_digit, is_letter, is_letter_or_digit, is_white};
use super::spellings::{compound_delimiter, simple_delimiter};
use super::strings::string_len;

/// The length of the piece that `text` begins with, and 0 where it begins with none.
#[tactic(auto, using(crate::proofs::Longest::measured))]
pub fn piece_len(text: &[u8]) -> usize
    requires { 0 < length text.now }
    ensures { IsMeasured text.now result }
{
    len_by_first(text)
}

/// The same length, by the class of the first byte.
#[tactic(auto, unfolding(crate::specs::Lengths::piece_len))]
fn len_by_first(text: &[u8]) -> usize
    requires { 0 < length text.now }
    ensures within { result ≤ length text.now }
    ensures is { result ≡ piece_len text.now }
{
    let first = text[0];
    if is_white(first) {
        1
    } else if is_letter(first) {
        word_len(behind(text, 1)) + 1
    } else if is_digit(first) {
        number_len(behind(text, 1)) + 1
    } else if first == b'"' {
        string_len(behind(text, 1)) + 1
    } else {
        mark_len(text)
    }
}

/// The length of a comment or a delimiter.
#[tactic(auto, unfolding(crate::specs::Lengths::mark_len))]
fn mark_len(text: &[u8]) -> usize
    requires { 0 < length text.now }
    ensures within { result ≤ length text.now }
    ensures is { result ≡ mark_len text.now }
{
    let first = text[0];
    if text.len() >= 2 {
        let second = text[1];
        if first == b'-' && second == b'-' {
            return line_len(behind(text, 2)) + 2;
        }
        if compound_delimiter(first, second).is_some() {
            return 2;
        }
    }
    if simple_delimiter(first).is_some() {
        1
    } else {
        0
    }
}

fn word_goes_on(text: &[u8], n: usize) -> bool
    requires { n < length text.now }
    ensures { result ≡ word_goes_on (slice_index text.now n) (drop (n + 1) text.now) }
{
    let b = text[n];
    is_letter_or_digit(b) || (b == b'_' && n + 1 < text.len() && is_letter_or_digit(text[n + 1]))
}

#[tactic(auto, using(crate::proofs::Runs::run_steps))]
fn word_len(text: &[u8]) -> usize
    ensures within { result ≤ length text.now }
    ensures is { result ≡ run_len word_goes_on text.now }
{
    let mut n = 0;
    while n < text.len() && word_goes_on(text, n) {
        n += 1;
    }
    n
}

fn number_goes_on(text: &[u8], n: usize) -> bool
    requires { n < length text.now }
    ensures { result ≡ number_goes_on (slice_index text.now n) (drop (n + 1) text.now) }
{
    let b = text[n];
    is_letter_or_digit(b) || b == b'_' || (b == b'.' && n + 1 < text.len() && is_digit(text[n + 1]))
}

#[tactic(auto, using(crate::proofs::Runs::run_steps))]
fn number_len(text: &[u8]) -> usize
    ensures within { result ≤ length text.now }
    ensures is { result ≡ run_len number_goes_on text.now }
{
    let mut n = 0;
    while n < text.len() && number_goes_on(text, n) {
        n += 1;
    }
    n
}

/// How many bytes stand before the end of the line.
#[tactic(auto, using(crate::proofs::Runs::run_steps))]
fn line_len(text: &[u8]) -> usize
    ensures within { result ≤ length text.now }
    ensures is { result ≡ run_len comment_goes_on text.now }
{
    let mut n = 0;
    while n < text.len() && text[n] != b'\n' {
        n += 1;
    }
    n
}
