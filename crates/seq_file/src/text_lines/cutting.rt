// A text cut at a mark.

ghost use Rattle.std.specs.Prelude.{◌≡◌, ◌<◌, ◌≤◌, ◌==◌, ◌∷◌, [], Some, false, length, position, option_map, IfSome, MatchOption, take, drop};
ghost use Rattle.std.specs.List.{slice_split};
ghost use Rattle.seq_file.specs.text_lines.Lines.{cut, is_line_end};
ghost use Rattle.seq_file.specs.text_lines.LineFiles.{begins_with_line};

/// A text cut at the first byte that is the mark: what stands before it and what behind.
#[tactic(auto, using(crate::proofs::text_lines::Walks::walks))]
pub fn cut_at<'a>(text: &'a [u8], mark: u8) -> Option<(&'a [u8], &'a [u8])>
    ensures parts { MatchOption result (slice_split (λ b. b == mark) text.now ≡ text.now ∷ [])
        (λ x. slice_split (λ b. b == mark) text.now ≡ x.0.now ∷ slice_split (λ b. b == mark) x.1.now) }
    ensures cut { option_map (λ x. (x.0.now, x.1.now)) result ≡ cut (λ b. b == mark) text.now }
{
    match place_of(text, mark) {
        Some(n) => Some((front(text, n), behind(text, n + 1))),
        None => None,
    }
}

fn front(text: &[u8], len: usize) -> &[u8]
    requires { len ≤ length text.now }
    ensures { result.now ≡ take len text.now }
{
    &text[..len]
}

fn behind(text: &[u8], len: usize) -> &[u8]
    requires { len ≤ length text.now }
    ensures { result.now ≡ drop len text.now }
{
    &text[len..]
}

fn place_of(text: &[u8], mark: u8) -> Option<usize>
    ensures is { result ≡ position (λ b. b == mark) text.now }
    ensures within { IfSome result (λ n. n < length text.now) }
{
    text.iter().position(|b| *b == mark)
}

/// What stands behind the first line, where that is this one.
#[tactic(auto, using(crate::proofs::text_lines::Headers::headers))]
pub fn behind_header<'a>(text: &'a [u8], header: &[u8]) -> Option<&'a [u8]>
    ensures { MatchOption result (begins_with_line header.now text.now ≡ false)
        (λ behind. cut is_line_end text.now ≡ Some (header.now, behind.now)) }
{
    match cut_at(text, b'\n') {
        Some((line, behind)) => if line == header { Some(behind) } else { None },
        None => None,
    }
}
