//! What a piece of a text is.

ghost use Rattle.std.specs.Prelude.{◌≡◌, ◌<◌, ◌+◌, ◌^◌, length};
ghost use Rattle.ada_lexer.specs.Verdicts.{verdict, word_verdict, number_verdict, string_verdict, mark_verdict};

use super::bytes::{is_digit, is_letter, is_white};
use super::errors::LexError;
use super::kinds::TokenKind;
use super::numbers::number_kind;
use super::spellings::{delimiter, reserved};
use super::strings::{bad_place, content_len, ends_inside};

/// An identifier has at most this many bytes.
const MAX_NAME: usize = 150;

/// The content of a string has at most this many bytes.
const MAX_CONTENT: usize = 200;

/// What a piece is: white space or a comment, a token, or a fault.
#[derive(Clone, Copy, Debug)]
pub enum Verdict {
    Gap,
    Kind(TokenKind),
    Fault(LexError),
}

/// What the piece that stands at the place `at` is.
#[tactic(auto, unfolding(crate::specs::Verdicts::verdict))]
pub fn verdict_of(at: u32, piece: &[u8]) -> Verdict
    requires { at + length piece.now < 2 ^ 32 }
    ensures { result ≡ verdict at piece.now }
{
    let [first, rest @ ..] = piece else {
        return Verdict::Gap;
    };
    if is_white(*first) {
        Verdict::Gap
    } else if is_letter(*first) {
        word_verdict(at, piece)
    } else if is_digit(*first) {
        number_verdict(at, piece)
    } else if *first == b'"' {
        string_verdict(at, rest)
    } else {
        mark_verdict(at, piece)
    }
}

#[tactic(auto, unfolding(crate::specs::Verdicts::word_verdict))]
fn word_verdict(at: u32, word: &[u8]) -> Verdict
    ensures { result ≡ word_verdict at word.now }
{
    match reserved(word) {
        Some(symbol) => Verdict::Kind(TokenKind::Symbol(symbol)),
        None => {
            if word.len() <= MAX_NAME {
                Verdict::Kind(TokenKind::Name)
            } else {
                Verdict::Fault(LexError::TooLong { at })
            }
        }
    }
}

#[tactic(auto, unfolding(crate::specs::Verdicts::number_verdict))]
fn number_verdict(at: u32, number: &[u8]) -> Verdict
    ensures { result ≡ number_verdict at number.now }
{
    match number_kind(number) {
        Some(kind) => Verdict::Kind(kind),
        None => Verdict::Fault(LexError::BadNumber { at }),
    }
}

/// `rest` is what stands behind the opening mark.
#[tactic(auto, unfolding(crate::specs::Verdicts::string_verdict))]
fn string_verdict(at: u32, rest: &[u8]) -> Verdict
    requires { at + 1 + length rest.now < 2 ^ 32 }
    ensures { result ≡ string_verdict at rest.now }
{
    if ends_inside(rest) {
        return Verdict::Fault(LexError::OpenString { at });
    }
    if content_len(rest) > MAX_CONTENT {
        return Verdict::Fault(LexError::TooLong { at });
    }
    match bad_place(rest) {
        Some(place) => Verdict::Fault(LexError::BadByte {
            at: at + 1 + place as u32,
        }),
        None => Verdict::Kind(TokenKind::Text),
    }
}

/// A comment or a delimiter.
#[tactic(auto, unfolding(crate::specs::Verdicts::mark_verdict))]
fn mark_verdict(at: u32, mark: &[u8]) -> Verdict
    ensures { result ≡ mark_verdict at mark.now }
{
    if let [b'-', b'-', ..] = mark {
        return Verdict::Gap;
    }
    match delimiter(mark) {
        Some(symbol) => Verdict::Kind(TokenKind::Symbol(symbol)),
        None => Verdict::Fault(LexError::BadByte { at }),
    }
}
