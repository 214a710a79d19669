//! What the string literals of a text say.

ghost use Rattle.std.specs.Prelude.{◌≡◌, true, false, [], ◌∷◌, ◌++◌, drop, slice_range, IfOk, IfSome, IsNone, OnOk, string_bytes};
ghost use Rattle.ada_lexer.specs.Bytes.{is_printable};
ghost use Rattle.ada_lexer.specs.Strings.{inside_after, content};
ghost use Rattle.ada_phrase_parser.specs.Spelling.{said_at, is_graphic};
ghost use Rattle.ada_phrase_parser.specs.Views.{told};

use crate::source::Source;
use crate::tokens::add;
use ada_expr_parser::ParseError;
use ada_tree::Span;
use std::alloc::Global;

/// What the literal at a place says, two marks for one, where that is graphic characters alone.
pub fn said(alloc: Global, source: &Source<'_>, at: Span) -> Result<Option<String>, ParseError>
    ensures said { IfOk result (λ found. IfSome found (λ text. string_bytes text ≡ said_at (told source.now) at)) }
    ensures graphic { IfOk result (λ found. IfSome found (λ text. is_graphic (said_at (told source.now) at) ≡ true)) }
    ensures other { IfOk result (λ found. IsNone found → is_graphic (said_at (told source.now) at) ≡ false) }
{
    let bytes = content(alloc, behind_first(bytes_at(source.bytes, at)))?;
    if !is_graphic(&bytes) {
        return Ok(None);
    }
    let text = String::from_utf8_lossy(alloc, &bytes)?;
    Ok(Some(text))
}

// The bytes of a place.
fn bytes_at<'a>(bytes: &'a [u8], at: Span) -> &'a [u8]
    ensures { result.now ≡ slice_range bytes.now at.start at.end }
{
    let end = (at.end as usize).min(bytes.len());
    let start = (at.start as usize).min(end);
    &bytes[start..end]
}

fn behind_first<'a>(bytes: &'a [u8]) -> &'a [u8]
    ensures { result.now ≡ drop 1 bytes.now }
{
    match bytes {
        [_, rest @ ..] => rest,
        [] => bytes,
    }
}

// What a literal says, by its bytes behind the opening mark.
fn content(alloc: Global, bytes: &[u8]) -> Result<Vec<u8>, ParseError>
    ensures { IfOk result (λ text. text.items ≡ content true bytes.now) }
{
    let mut text = Vec::new(alloc);
    let mut inside = true;
    for b in bytes {
        add_said(&mut text, inside, *b)?;
        inside = inside_after(inside, *b);
    }
    Ok(text)
}

fn add_said(text: &mut Vec<u8>, inside: bool, b: u8) -> Result<(), ParseError>
    ensures { OnOk result (text.new.items ≡ text.old.items ++ content inside (b ∷ [])) }
{
    if inside && b == b'"' {
        return Ok(());
    }
    add(text, b)
}

fn inside_after(inside: bool, b: u8) -> bool
    ensures { result ≡ inside_after inside b }
{
    if inside { b != b'"' } else { true }
}

fn is_graphic(bytes: &[u8]) -> bool
    ensures { result ≡ is_graphic bytes.now }
{
    for b in bytes {
        if !is_printable(*b) {
            return false;
        }
    }
    true
}

fn is_printable(b: u8) -> bool
    ensures { result ≡ is_printable b }
{
    32 <= b && b <= 126
}
