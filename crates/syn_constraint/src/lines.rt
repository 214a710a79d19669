// The lines of a constraint file.

ghost use Rattle.std.specs.Prelude.{◌≡◌, option_map, option_copied};
ghost use Rattle.syn_constraint.specs.declared.constraints.Constraint.TheVariants.{Before, Most};
ghost use Rattle.syn_constraint.specs.Lines.{letter_text, letter_of_word, num_of_word, limit_of_word, num_front, numbers_front, pattern_front, pattern_of, on_front, first_by, of_two, of_three, constraint_of, line_of_text};
ghost use Rattle.syn_constraint.specs.inner.Reading.{words_left, told, front_with, capped_num, capped_pattern, capped_constraint};

use super::constraints::{Constraint, Letter, Num, Pattern};
use super::reach::number_count;
use super::words::{first_word, is_text};
use seq_file::text_lines::{integer, small_number};

const LARGEST_LIMIT: u32 = 200000;

/// The constraint of a line, with exact numbers up to a cap; nothing where the line is not in the grammar.
pub(crate) fn read_line(text: &[u8]) -> Option<Constraint>
    ensures { result ≡ option_map (λ line. capped_constraint (constraint_of line)) (line_of_text text.now) }
{
    let Some((word, left)) = first_word(Some(text)) else {
        return None;
    };
    if is_text(word, b"before") {
        read_before(left)
    } else if is_text(word, b"never") {
        read_most(0, left)
    } else if is_text(word, b"most") {
        read_limited(left)
    } else {
        None
    }
}

fn read_before(left: Option<&[u8]>) -> Option<Constraint>
    ensures { result ≡ option_map capped_constraint (of_two Before (words_left (option_copied left.entry))) }
{
    let Some((early, behind)) = read_pattern(left) else {
        return None;
    };
    match read_last(behind) {
        Some(late) => Some(Constraint::Before { early, late }),
        None => None,
    }
}

// The patterns behind the N of a line.
fn read_most(limit: u32, left: Option<&[u8]>) -> Option<Constraint>
    ensures { result ≡ option_map capped_constraint (of_three (Most limit) (words_left (option_copied left.entry))) }
{
    let Some((counted, left)) = read_pattern(left) else {
        return None;
    };
    let Some((opens, left)) = read_pattern(left) else {
        return None;
    };
    match read_last(left) {
        Some(closes) => Some(Constraint::Most {
            limit,
            counted,
            opens,
            closes,
        }),
        None => None,
    }
}

// The N of a line and the patterns behind it.
fn read_limited(left: Option<&[u8]>) -> Option<Constraint>
    ensures { result ≡ option_map capped_constraint (on_front (λ limit behind. of_three (Most limit) behind) (first_by limit_of_word (words_left (option_copied left.entry)))) }
{
    let Some((word, left)) = first_word(left) else {
        return None;
    };
    match limit_of_word(word) {
        Some(limit) => read_most(limit, left),
        None => None,
    }
}

// The pattern that is all that is left.
fn read_last(left: Option<&[u8]>) -> Option<Pattern>
    ensures { result ≡ option_map capped_pattern (pattern_of (words_left (option_copied left.entry))) }
{
    let Some((pattern, behind)) = read_pattern(left) else {
        return None;
    };
    match behind {
        None => Some(pattern),
        Some(_) => None,
    }
}

// The pattern that the words begin with.
fn read_pattern<'a>(left: Option<&'a [u8]>) -> Option<(Pattern, Option<&'a [u8]>)>
    ensures { told result ≡ front_with capped_pattern (pattern_front (words_left (option_copied left.entry))) }
{
    let Some((word, left)) = first_word(left) else {
        return None;
    };
    match letter_of_word(word) {
        Some(letter) => read_numbers(letter, left),
        None => None,
    }
}

// The pattern of this letter, whose numbers the words begin with.
fn read_numbers<'a>(letter: Letter, left: Option<&'a [u8]>) -> Option<(Pattern, Option<&'a [u8]>)>
    ensures { told result ≡ front_with capped_pattern (numbers_front letter (words_left (option_copied left.entry))) }
{
    let count = number_count(letter);
    let Some((one, left)) = read_num(0 < count, left) else {
        return None;
    };
    let Some((two, left)) = read_num(1 < count, left) else {
        return None;
    };
    let Some((three, left)) = read_num(2 < count, left) else {
        return None;
    };
    let pattern = Pattern {
        letter,
        one,
        two,
        three,
    };
    Some((pattern, left))
}

// What the first word asks of a number, where there is that number; every number will do, where there is not.
fn read_num<'a>(there: bool, left: Option<&'a [u8]>) -> Option<(Num, Option<&'a [u8]>)>
    ensures { told result ≡ front_with capped_num (num_front there (words_left (option_copied left.entry))) }
{
    if !there {
        return Some((Num::Every, left));
    }
    let Some((word, left)) = first_word(left) else {
        return None;
    };
    match num_of_word(word) {
        Some(num) => Some((num, left)),
        None => None,
    }
}

fn num_of_word(word: &[u8]) -> Option<Num>
    ensures { result ≡ option_map capped_num (num_of_word word.now) }
{
    if is_text(word, b"*") {
        return Some(Num::Every);
    }
    if is_text(word, b"?") {
        return Some(Num::Same);
    }
    match integer(word) {
        Some(z) => Some(Num::Exact(z)),
        None => None,
    }
}

fn limit_of_word(word: &[u8]) -> Option<u32>
    ensures { result ≡ limit_of_word word.now }
{
    match small_number(word) {
        Some(n) => if n <= LARGEST_LIMIT { Some(n) } else { None },
        None => None,
    }
}

const LETTERS: [Letter; 11] = [
    Letter::R,
    Letter::E,
    Letter::S,
    Letter::D,
    Letter::C,
    Letter::T,
    Letter::F,
    Letter::X,
    Letter::B,
    Letter::Z,
    Letter::Whole,
];

fn letter_of_word(word: &[u8]) -> Option<Letter>
    ensures { result ≡ letter_of_word word.now }
{
    LETTERS
        .iter()
        .copied()
        .find(|letter| word == letter_text(*letter))
}

fn letter_text(letter: Letter) -> &'static [u8]
    ensures { result.now ≡ letter_text letter }
{
    match letter {
        Letter::R => b"R",
        Letter::E => b"E",
        Letter::S => b"S",
        Letter::D => b"D",
        Letter::C => b"C",
        Letter::T => b"T",
        Letter::F => b"F",
        Letter::X => b"X",
        Letter::B => b"B",
        Letter::Z => b"Z",
        Letter::Whole => b"any",
    }
}
