// The words of a line.

ghost use Rattle.std.specs.Prelude.{◌≡◌, [], ◌∷◌, bytes_eq};
ghost use Rattle.seq_file.specs.text_lines.Lines.{words_of};
ghost use Rattle.seq_file.specs.inner.WordLists.{AreWords};

use crate::text_lines::cut_at;

/// A line cut at each of its blanks.
#[derive(Clone, Copy)]
pub(crate) enum Words<'a> {
    One(&'a [u8]),
    Two(&'a [u8], &'a [u8]),
    Three(&'a [u8], &'a [u8], &'a [u8]),
    Four(&'a [u8], &'a [u8], &'a [u8], &'a [u8]),
    Five(&'a [u8], &'a [u8], &'a [u8], &'a [u8], &'a [u8]),
    More,
}

/// The words of a line; `More` where there are more than five.
#[tactic(auto, using(crate::proofs::Walks::walks))]
pub(crate) fn split_words<'a>(line: &'a [u8]) -> Words<'a>
    ensures { AreWords result (words_of line.now) }
{
    let Some((a, rest)) = cut_at(line, b' ') else {
        return Words::One(line);
    };
    let Some((b, rest)) = cut_at(rest, b' ') else {
        return Words::Two(a, rest);
    };
    let Some((c, rest)) = cut_at(rest, b' ') else {
        return Words::Three(a, b, rest);
    };
    let Some((d, rest)) = cut_at(rest, b' ') else {
        return Words::Four(a, b, c, rest);
    };
    match cut_at(rest, b' ') {
        Some(_) => Words::More,
        None => Words::Five(a, b, c, d, rest),
    }
}

/// Whether the word is that letter.
pub(crate) fn is_letter(word: &[u8], letter: u8) -> bool
    ensures { result ≡ bytes_eq word.now (letter ∷ []) }
{
    match word {
        [b] => *b == letter,
        _ => false,
    }
}

/// Whether the word is that text.
pub(crate) fn is_text(word: &[u8], text: &[u8]) -> bool
    ensures { result ≡ bytes_eq word.now text.now }
{
    word == text
}
