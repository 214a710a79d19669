// The words of a line, from the front.

ghost use Rattle.std.specs.Prelude.{◌≡◌, [], ◌∷◌, MatchOption, bytes_eq, option_copied};
ghost use Rattle.syn_constraint.specs.inner.Reading.{words_left};

use seq_file::text_lines::cut_at;

/// The first of the words that are left of a line, and what is left behind it. What is left is the end of the line, or nothing where no word is.
pub(crate) fn first_word<'a>(left: Option<&'a [u8]>) -> Option<(&'a [u8], Option<&'a [u8]>)>
    ensures { MatchOption result (words_left (option_copied left.entry) ≡ [])
        (λ x. words_left (option_copied left.entry) ≡ x.0.now ∷ words_left (option_copied x.1)) }
{
    let Some(rest) = left else {
        return None;
    };
    match cut_at(rest, b' ') {
        Some((word, behind)) => Some((word, Some(behind))),
        None => Some((rest, None)),
    }
}

/// Whether the word is that text.
pub(crate) fn is_text(word: &[u8], text: &[u8]) -> bool
    ensures { result ≡ bytes_eq word.now text.now }
{
    word == text
}
