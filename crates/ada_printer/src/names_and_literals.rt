// Indentation, names, durations and strings.
#![tactic(auto, using(crate::proofs::Listed::listed))]

ghost use Rattle.std.specs.Prelude.{◌≡◌, ◌<◌, ◌/◌, ◌%◌, decimal};
ghost use Rattle.ded_io.specs.Written.{◌⧺◌, each_text};
ghost use Rattle.ada_printer.specs.Layout.{indent, separated, digit, decimals, duration_text, character_text, string_text, name_text, word_text, words_text, later_word};
ghost use Rattle.ded_io.specs.pages.Pages.{Drew, over};

use ada_tree::{NameId, Names, Word};
use ded_io::Sink;
use ded_io::pages::Page;
use itoa::Buffer;

// The indentation of a line at a level.
pub(crate) fn put_indent<K: Sink>(level: u32, page: &mut Page, out: &mut K)
    ensures { Drew (over page.old (K.told out.old) (K.faults out.old)) (over page.new (K.told out.new) (K.faults out.new)) (indent level) }
{
    for done in 0..level {
        page.put(b"   ", out);
    }
}

// The bytes of a name.
fn text_of(names: &Names, id: NameId) -> &[u8]
    ensures { result.now ≡ name_text names.now id }
{
    match names.text(id) {
        Some(text) => text.as_bytes(),
        None => &[],
    }
}

pub(crate) fn put_name<K: Sink>(names: &Names, id: NameId, page: &mut Page, out: &mut K)
    ensures { Drew (over page.old (K.told out.old) (K.faults out.old)) (over page.new (K.told out.new) (K.faults out.new)) (name_text names.now id) }
{
    page.put(text_of(names, id), out);
}

pub(crate) fn put_word<K: Sink>(names: &Names, word: Word, page: &mut Page, out: &mut K)
    ensures { Drew (over page.old (K.told out.old) (K.faults out.old)) (over page.new (K.told out.new) (K.faults out.new)) (word_text names.now word) }
{
    put_name(names, word.name, page, out);
}

// A name that may be left out, with the blank before it.
pub(crate) fn put_later_word<K: Sink>(
    names: &Names,
    word: Option<Word>,
    page: &mut Page,
    out: &mut K,
)
    ensures { Drew (over page.old (K.told out.old) (K.faults out.old)) (over page.new (K.told out.new) (K.faults out.new)) (later_word names.now word) }
{
    match word {
        Some(word) => {
            page.put(b" ", out);
            put_word(names, word, page, out);
        }
        None => {}
    }
}

// Names, each with a mark before it.
fn put_marked_words<K: Sink>(
    names: &Names,
    mark: &[u8],
    words: &[Word],
    page: &mut Page,
    out: &mut K,
)
    ensures { Drew (over page.old (K.told out.old) (K.faults out.old)) (over page.new (K.told out.new) (K.faults out.new)) (each_text (λ w. mark.now ⧺ word_text names.now w) words.now) }
{
    for word in words {
        page.put(mark, out);
        put_word(names, *word, page, out);
    }
}

// Names with a mark between each two.
pub(crate) fn put_separated_words<K: Sink>(
    names: &Names,
    mark: &[u8],
    words: &[Word],
    page: &mut Page,
    out: &mut K,
)
    ensures { Drew (over page.old (K.told out.old) (K.faults out.old)) (over page.new (K.told out.new) (K.faults out.new)) (separated mark.now (word_text names.now) words.now) }
{
    match words {
        [first, rest @ ..] => {
            put_word(names, *first, page, out);
            put_marked_words(names, mark, rest, page, out);
        }
        [] => {}
    }
}

// `A, B, C`
pub(crate) fn put_words<K: Sink>(names: &Names, words: &[Word], page: &mut Page, out: &mut K)
    ensures { Drew (over page.old (K.told out.old) (K.faults out.old)) (over page.new (K.told out.new) (K.faults out.new)) (words_text names.now words.now) }
{
    put_separated_words(names, b", ", words, page, out);
}

// A number in decimal.
pub(crate) fn put_number<K: Sink>(n: u32, page: &mut Page, out: &mut K)
    ensures { Drew (over page.old (K.told out.old) (K.faults out.old)) (over page.new (K.told out.new) (K.faults out.new)) (decimal n) }
{
    let mut buffer = Buffer::new();
    page.put(buffer.format(n).as_bytes(), out);
}

// A decimal digit.
fn digit_of(n: u32) -> u8
    requires { n < 10 }
    ensures { result ≡ digit n }
{
    b'0' + n as u8
}

// The decimals of a duration.
fn put_decimals<K: Sink>(thousandths: u32, page: &mut Page, out: &mut K)
    ensures { Drew (over page.old (K.told out.old) (K.faults out.old)) (over page.new (K.told out.new) (K.faults out.new)) (decimals (thousandths / 100 % 10) (thousandths / 10 % 10) (thousandths % 10)) }
{
    let first = digit_of(thousandths / 100 % 10);
    let second = digit_of(thousandths / 10 % 10);
    let third = digit_of(thousandths % 10);
    if thousandths % 10 != 0 {
        page.put(&[first, second, third], out);
    } else if thousandths / 10 % 10 != 0 {
        page.put(&[first, second], out);
    } else {
        page.put(&[first], out);
    }
}

// A duration in thousandths of a second.
pub(crate) fn put_duration<K: Sink>(thousandths: u32, page: &mut Page, out: &mut K)
    ensures { Drew (over page.old (K.told out.old) (K.faults out.old)) (over page.new (K.told out.new) (K.faults out.new)) (duration_text thousandths) }
{
    put_number(thousandths / 1000, page, out);
    page.put(b".", out);
    put_decimals(thousandths, page, out);
}

// A character of a string literal.
fn put_character<K: Sink>(byte: u8, page: &mut Page, out: &mut K)
    ensures { Drew (over page.old (K.told out.old) (K.faults out.old)) (over page.new (K.told out.new) (K.faults out.new)) (character_text byte) }
{
    if byte == b'"' {
        page.put(b"\"\"", out);
    } else {
        page.put(&[byte], out);
    }
}

// The content of a string literal.
fn put_content<K: Sink>(content: &[u8], page: &mut Page, out: &mut K)
    ensures { Drew (over page.old (K.told out.old) (K.faults out.old)) (over page.new (K.told out.new) (K.faults out.new)) (each_text character_text content.now) }
{
    for byte in content {
        put_character(*byte, page, out);
    }
}

// A string literal.
pub(crate) fn put_string<K: Sink>(content: &str, page: &mut Page, out: &mut K)
    ensures { Drew (over page.old (K.told out.old) (K.faults out.old)) (over page.new (K.told out.new) (K.faults out.new)) (string_text content.now) }
{
    page.put(b"\"", out);
    put_content(content.as_bytes(), page, out);
    page.put(b"\"", out);
}
