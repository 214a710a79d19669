//! The numbers.

ghost use Rattle.std.specs.Prelude.{◌≡◌, ◌<◌, ◌≤◌, ◌+◌, ◌-◌, length, drop, slice_index, position, IfSome};
ghost use Rattle.ada_lexer.specs.Numbers.{is_point, value_behind, numeral_goes_on, integer_value, decimals_value, duration_value, number_kind};

use super::bytes::{behind, front, is_digit};
use super::kinds::TokenKind;

const MAX_INTEGER: u64 = 2147483647;

const MAX_THOUSANDTHS: u64 = 86400000;

/// The integer or the duration that the whole of `text` is.
#[tactic(auto, unfolding(crate::specs::Numbers::number_kind))]
pub fn number_kind(text: &[u8]) -> Option<TokenKind>
    ensures { result ≡ number_kind text.now }
{
    match point_place(text) {
        None => match integer(text) {
            Some(value) => Some(TokenKind::Integer(value)),
            None => None,
        },
        Some(point) => match duration(text, point) {
            Some(value) => Some(TokenKind::Duration(value)),
            None => None,
        },
    }
}

/// The place of the first point.
fn point_place(text: &[u8]) -> Option<usize>
    ensures is { result ≡ position is_point text.now }
    ensures within { IfSome result (λ place. place < length text.now) }
{
    text.iter().position(|b| *b == b'.')
}

/// The value of digits with single underscores between them, within the limit of an integer.
#[tactic(auto, using(crate::proofs::NumberLemmas::integer_steps))]
fn integer(text: &[u8]) -> Option<u32>
    ensures { result ≡ integer_value text.now }
{
    if text.is_empty() || !is_digit(text[0]) {
        return None;
    }
    let mut value: u64 = 0;
    let mut n = 0;
    while n < text.len() {
        if !numeral_goes_on(text, n) {
            return None;
        }
        value = with_digit(value, text[n]);
        if value > MAX_INTEGER {
            return None;
        }
        n += 1;
    }
    Some(value as u32)
}

fn numeral_goes_on(text: &[u8], n: usize) -> bool
    requires { n < length text.now }
    ensures { result ≡ numeral_goes_on (slice_index text.now n) (drop (n + 1) text.now) }
{
    let b = text[n];
    is_digit(b) || (b == b'_' && n + 1 < text.len() && is_digit(text[n + 1]))
}

/// The value with one digit more, or the same value at an underscore.
fn with_digit(value: u64, b: u8) -> u64
    requires small { value ≤ 2147483647 }
    requires digit { 48 ≤ b }
    ensures { result ≡ value_behind value b }
{
    if b == b'_' {
        value
    } else {
        value * 10 + u64::from(b - b'0')
    }
}

/// The thousandths that one to three digits behind a point mean.
#[tactic(auto, unfolding(crate::specs::Numbers::decimals_value))]
fn decimals(text: &[u8]) -> Option<u32>
    ensures { result ≡ decimals_value text.now }
{
    match text {
        [a] if is_digit(*a) => Some(digit(*a) * 100),
        [a, b] if is_digit(*a) && is_digit(*b) => Some(digit(*a) * 100 + digit(*b) * 10),
        [a, b, c] if is_digit(*a) && is_digit(*b) && is_digit(*c) => {
            Some(digit(*a) * 100 + digit(*b) * 10 + digit(*c))
        }
        _ => None,
    }
}

fn digit(b: u8) -> u32
    requires { 48 ≤ b }
    ensures { result ≡ b - 48 }
{
    u32::from(b - b'0')
}

/// The thousandths of whole seconds, a point at the place `point`, and decimals.
#[tactic(auto, unfolding(crate::specs::Numbers::duration_value))]
fn duration(text: &[u8], point: usize) -> Option<u32>
    requires { point < length text.now }
    ensures { result ≡ duration_value point text.now }
{
    let whole = u64::from(integer(front(text, point))?);
    let part = u64::from(decimals(behind(text, point + 1))?);
    let value = whole * 1000 + part;
    if value > MAX_THOUSANDTHS {
        return None;
    }
    Some(value as u32)
}
