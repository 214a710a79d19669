//! Lines and columns.

ghost use Rattle.std.specs.Prelude.{◌≡◌, ◌<◌, ◌≤◌, ◌-◌, ◌^◌, length};
ghost use Rattle.std.specs.List.{after_last};
ghost use Rattle.ada_lexer.specs.Bytes.{is_line_end};
ghost use Rattle.ada_lexer.specs.Places.{line_at, column_at};

use super::bytes::front;

/// A place in a text as people name it: the line from 1, and in it the byte from 1.
#[derive(Clone, Copy, Debug, PartialEq, Eq)]
pub struct LineCol {
    pub line: u32,
    pub col: u32,
}

/// The line and the column of the byte at `at`, which counts from 0. A line ends with a line feed alone, and a column
/// counts bytes. A place past the text's end is taken for the end.
#[tactic(auto, using(std::proofs::lemmas::List::take_min))]
pub fn line_col(src: &[u8], at: u32) -> LineCol
    requires { length src.now < 2 ^ 32 - 1 }
    ensures line { result.line ≡ line_at src.now at }
    ensures col { result.col ≡ column_at src.now at }
{
    let before = front(src, (at as usize).min(src.len()));
    let ends = before.iter().filter(|b| **b == b'\n').count();
    let behind = tail_len(before);
    LineCol {
        line: ends as u32 + 1,
        col: behind as u32 + 1,
    }
}

/// How many bytes stand behind the last line feed.
#[tactic(auto, using(crate::proofs::PlaceLemmas::tail_steps))]
fn tail_len(text: &[u8]) -> usize
    ensures within { result ≤ length text.now }
    ensures is { result ≡ length (after_last is_line_end text.now) }
{
    let mut n = text.len();
    while n > 0 && text[n - 1] != b'\n' {
        n -= 1;
    }
    text.len() - n
}
