// The lines of a sequence file.

ghost use Rattle.std.specs.Prelude.{◌≡◌, ◌<◌, ◌≤◌, ◌^◌, option_map, count_by, drop, length, slice_index, Some, ◌+◌, cond, ℕ, Option, unwrap_or, [], nat_eq, FitsSigned};
ghost use Rattle.std.specs.Int.{w32};
ghost use Rattle.seq_file.specs.text_lines.Capped.{capped};
ghost use Rattle.seq_file.specs.Short.{IsShort};
ghost use Rattle.seq_file.specs.declared.lines.Verdict.TheVariants.{Known, BadNumber};
ghost use Rattle.syn_event.specs.Numbering.{original_tasks, original_entries, is_original_task, is_original_entry};
ghost use Rattle.syn_event.specs.DeclaredTasks.{text_of};
ghost use Rattle.event_machine.specs.declared.Event.{Event};
ghost use Rattle.seq_file.specs.text_lines.Lines.{words_of};
ghost use Rattle.seq_file.specs.text_lines.Numerals.{count, integer};
ghost use Rattle.seq_file.specs.Lines.{event_of_line, header_of_format, lone_event, task_event, pair_event, call_event, with_three, header_with, upper_name, is_upper_name, name_goes_on, is_name_part, is_capital};
ghost use Rattle.common_lemmas.specs.Following.{every};
ghost use Rattle.seq_file.specs.inner.Verdicts.{verdict_of};
ghost use Rattle.seq_file.specs.Files.{fault_of_header};

use super::errors::SeqError;
use super::known::{is_abort, is_call, is_task_beside_main, is_wait};
use super::line_words::{Words, is_letter, is_text, split_words};
use crate::text_lines::{count, integer, is_digit};
use ada_tree::Names;
use syn_event::{EntryInfo, Event, Numbers, TaskInfo};

/// What a line comes to that should be an event's.
#[derive(Clone, Copy, Debug, PartialEq, Eq)]
pub(crate) enum Verdict {
    Known(Event),
    BadNumber,
    BadLine,
}

/// The event that a line writes.
pub(crate) fn read_event(line: &[u8], numbers: &Numbers) -> Verdict
    ensures { result ≡ verdict_of numbers.now (event_of_line line.now) }
{
    match split_words(line) {
        Words::One(letter) => read_lone(letter),
        Words::Two(letter, a) => read_task(letter, a, numbers),
        Words::Three(letter, a, b) => read_pair(letter, a, b, numbers),
        Words::Four(letter, c, e, i) => read_call(letter, c, e, i, numbers),
        _ => Verdict::BadLine,
    }
}

fn read_lone(letter: &[u8]) -> Verdict
    ensures { (numbers : _) → result ≡ verdict_of numbers (lone_event letter.now) }
{
    if is_letter(letter, b'Z') {
        Verdict::Known(Event::Z)
    } else {
        Verdict::BadLine
    }
}

fn read_task(letter: &[u8], a: &[u8], numbers: &Numbers) -> Verdict
    ensures { result ≡ verdict_of numbers.now (task_event letter.now (count a.now)) }
{
    let Some(n) = count(a) else {
        return Verdict::BadLine;
    };
    let known = is_task_beside_main(numbers, n);
    let a = low(n);
    if is_letter(letter, b'E') {
        verdict_on(Event::E { a }, known)
    } else if is_letter(letter, b'S') {
        verdict_on(Event::S { a }, known)
    } else if is_letter(letter, b'X') {
        verdict_on(Event::X { a }, known)
    } else {
        Verdict::BadLine
    }
}

fn read_pair(letter: &[u8], a: &[u8], b: &[u8], numbers: &Numbers) -> Verdict
    ensures { result ≡ verdict_of numbers.now (pair_event letter.now (count a.now) (count b.now)) }
{
    let Some(m) = count(a) else {
        return Verdict::BadLine;
    };
    let Some(n) = count(b) else {
        return Verdict::BadLine;
    };
    if is_letter(letter, b'D') {
        let a = low(m);
        let k = low(n);
        let known = is_wait(numbers, m, n);
        verdict_on(Event::D { a, k }, known)
    } else if is_letter(letter, b'B') {
        let t = low(m);
        let x = low(n);
        let known = is_abort(numbers, m, n);
        verdict_on(Event::B { t, x }, known)
    } else {
        Verdict::BadLine
    }
}

fn read_call(letter: &[u8], c: &[u8], e: &[u8], i: &[u8], numbers: &Numbers) -> Verdict
    ensures { result ≡ verdict_of numbers.now (call_event letter.now (count c.now) (count e.now) (integer i.now)) }
{
    let Some(caller) = count(c) else {
        return Verdict::BadLine;
    };
    let Some(entry) = count(e) else {
        return Verdict::BadLine;
    };
    let Some(index) = integer(i) else {
        return Verdict::BadLine;
    };
    let known = is_call(numbers, caller, entry, index);
    let c = low(caller);
    let e = low(entry);
    let i = low_integer(index);
    if is_letter(letter, b'R') {
        verdict_on(Event::R { c, e, i }, known)
    } else if is_letter(letter, b'C') {
        verdict_on(Event::C { c, e, i }, known)
    } else if is_letter(letter, b'T') {
        verdict_on(Event::T { c, e, i }, known)
    } else if is_letter(letter, b'F') {
        verdict_on(Event::F { c, e, i }, known)
    } else {
        Verdict::BadLine
    }
}

fn verdict_on(event: Event, known: bool) -> Verdict
    ensures { result ≡ cond known (Known event) BadNumber }
{
    if known {
        Verdict::Known(event)
    } else {
        Verdict::BadNumber
    }
}

// The number, where it fits 32 bits.
fn low(n: u64) -> u32
    ensures { n < 2 ^ 32 → result ≡ n }
{
    u32::try_from(n).unwrap_or(u32::MAX)
}

fn low_integer(n: i64) -> i32
    ensures { FitsSigned w32 n → result ≡ n }
{
    i32::try_from(n).unwrap_or(i32::MAX)
}

/// What the header of a program's files says: its name, and how many tasks beside main and entries the original has.
#[derive(Clone, Copy)]
pub(crate) struct Program<'a> {
    main: &'a [u8],
    tasks: u64,
    entries: u64,
}

pub(crate) fn program_of<'a>(numbers: &Numbers, names: &'a Names) -> Program<'a>
    ensures main { result.main.now ≡ text_of names.now numbers.now.main }
    ensures tasks { result.tasks ≡ original_tasks numbers.now }
    ensures entries { result.entries ≡ original_entries numbers.now }
    ensures few_tasks { result.tasks < 2 ^ 32 }
    ensures few_entries { result.entries < 2 ^ 32 }
    ensures short { IsShort numbers.now }
{
    let tasks = original_tasks(&numbers.tasks);
    let entries = original_entries(&numbers.entries);
    let main = text_or_empty(names.text(numbers.main));
    Program {
        main,
        tasks,
        entries,
    }
}

fn text_or_empty<'a>(text: Option<&'a str>) -> &'a [u8]
    ensures { result.now ≡ unwrap_or (option_map (λ t. t.now) text.entry) [] }
{
    match text {
        Some(text) => text.as_bytes(),
        None => b"",
    }
}

/// The fault of a header in the format of this number, if it has one.
pub(crate) fn header_fault(line: &[u8], number: &[u8], program: &Program) -> Option<SeqError>
    requires tasks { program.now.tasks < 2 ^ 32 }
    requires entries { program.now.entries < 2 ^ 32 }
    ensures { result ≡ fault_of_header program.now.main.now program.now.tasks program.now.entries (header_of_format number.now (words_of line.now)) }
{
    match split_words(line) {
        Words::Five(format, version, main, tasks, entries) => {
            if is_text(format, b"ded-seq") && is_text(version, number) {
                program_fault(main, tasks, entries, program)
            } else {
                Some(SeqError::BadLine { line: 1 })
            }
        }
        _ => Some(SeqError::BadLine { line: 1 }),
    }
}

// The fault of the words behind the format's, if they have one.
fn program_fault(main: &[u8], tasks: &[u8], entries: &[u8], program: &Program) -> Option<SeqError>
    requires tasks { program.now.tasks < 2 ^ 32 }
    requires entries { program.now.entries < 2 ^ 32 }
    ensures { result ≡ fault_of_header program.now.main.now program.now.tasks program.now.entries
        (with_three header_with (upper_name main.now) (count tasks.now) (count entries.now)) }
{
    if !is_upper_name(main) {
        return Some(SeqError::BadLine { line: 1 });
    }
    let Some(tasks) = count(tasks) else {
        return Some(SeqError::BadLine { line: 1 });
    };
    let Some(entries) = count(entries) else {
        return Some(SeqError::BadLine { line: 1 });
    };
    let same_main = is_text(main, program.main);
    let same_tasks = is_number(tasks, program.tasks);
    let same_entries = is_number(entries, program.entries);
    if same_main && same_tasks && same_entries {
        None
    } else {
        Some(SeqError::OtherProgram { line: 1 })
    }
}

/// Whether the number is the one that is wanted.
#[tactic(auto, using(crate::proofs::Heading::same_numbers))]
pub(crate) fn is_number(n: u64, wanted: u64) -> bool
    requires { wanted < 2 ^ 32 }
    ensures { (m : ℕ) → n ≡ capped m → result ≡ nat_eq m wanted }
{
    n == wanted
}

// How many of the tasks beside main are the original's.
pub(crate) fn original_tasks(tasks: &[TaskInfo]) -> u64
    ensures is { result ≡ count_by is_original_task (drop 1 tasks.now) }
    ensures within { result ≤ length tasks.now }
{
    match tasks {
        [] => 0,
        [_, rest @ ..] => rest.iter().filter(|info| !info.added).count() as u64,
    }
}

pub(crate) fn original_entries(entries: &[EntryInfo]) -> u64
    ensures is { result ≡ count_by is_original_entry entries.now }
    ensures within { result ≤ length entries.now }
{
    entries.iter().filter(|info| !info.added).count() as u64
}

fn is_upper_name(word: &[u8]) -> bool
    ensures { result ≡ is_upper_name word.now }
{
    match word {
        [] => false,
        [b, rest @ ..] => is_capital(*b) && every_goes_on(rest),
    }
}

#[tactic(auto, using(crate::proofs::Walks::walks))]
fn every_goes_on(word: &[u8]) -> bool
    ensures { result ≡ every name_goes_on word.now }
{
    let mut n = 0;
    while n < word.len() {
        if !goes_on(word, n) {
            return false;
        }
        n += 1;
    }
    true
}

fn goes_on(word: &[u8], n: usize) -> bool
    requires { n < length word.now }
    ensures { result ≡ name_goes_on (slice_index word.now n) (drop (n + 1) word.now) }
{
    let b = word[n];
    is_name_part(b) || (b == b'_' && n + 1 < word.len() && is_name_part(word[n + 1]))
}

fn is_name_part(b: u8) -> bool
    ensures { result ≡ is_name_part b }
{
    is_capital(b) || is_digit(b)
}

fn is_capital(b: u8) -> bool
    ensures { result ≡ is_capital b }
{
    b.is_ascii_uppercase()
}
