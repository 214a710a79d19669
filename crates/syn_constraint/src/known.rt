// The exact numbers that patterns may have in a program.

ghost use Rattle.std.specs.Prelude.{◌≡◌, option_copied};
ghost use Rattle.seq_file.specs.Known.{is_task, is_task_beside_main, is_alternative, is_index, is_known_member, fits_entry};
ghost use Rattle.syn_constraint.specs.Known.{is_natural_with, is_entry, is_open_or, is_index_of, may_be_task, may_be_beside_main, may_be_call, is_known_pattern, is_known_constraint};
ghost use Rattle.syn_constraint.specs.inner.Reading.{entry_of};

use super::constraints::{Constraint, Letter, Num, Pattern};
use syn_event::{EntryInfo, Numbers};

/// Whether the exact numbers of all patterns are known.
pub(crate) fn is_known(numbers: &Numbers, constraint: &Constraint) -> bool
    ensures { result ≡ is_known_constraint numbers.now constraint.now }
{
    match *constraint {
        Constraint::Before { early, late } => is_known_pattern(numbers, &early)
            && is_known_pattern(numbers, &late),
        Constraint::Most {
            counted,
            opens,
            closes,
            ..
        } => is_known_pattern(numbers, &counted)
            && is_known_pattern(numbers, &opens)
            && is_known_pattern(numbers, &closes),
    }
}

fn is_known_pattern(numbers: &Numbers, pattern: &Pattern) -> bool
    ensures { result ≡ is_known_pattern numbers.now pattern.now }
{
    match pattern.letter {
        Letter::R | Letter::C | Letter::T | Letter::F => may_be_call(numbers, pattern),
        Letter::E | Letter::S | Letter::X => may_be_beside_main(numbers, pattern.one),
        Letter::D => may_be_beside_main(numbers, pattern.one) && may_be_alternative(pattern.two),
        Letter::B => may_be_task(numbers, pattern.one) && may_be_beside_main(numbers, pattern.two),
        Letter::Z | Letter::Whole => true,
    }
}

fn may_be_call(numbers: &Numbers, pattern: &Pattern) -> bool
    ensures { result ≡ may_be_call numbers.now pattern.now.one pattern.now.two pattern.now.three }
{
    may_be_task(numbers, pattern.one)
        && may_be_entry(numbers, pattern.two)
        && may_be_index(numbers, pattern.two, pattern.three)
}

fn may_be_task(numbers: &Numbers, asked: Num) -> bool
    ensures { result ≡ may_be_task numbers.now asked }
{
    match asked {
        Num::Exact(t) => is_task(numbers, t),
        Num::Every | Num::Same => true,
    }
}

fn may_be_beside_main(numbers: &Numbers, asked: Num) -> bool
    ensures { result ≡ may_be_beside_main numbers.now asked }
{
    match asked {
        Num::Exact(t) => is_task(numbers, t) && 0 < t,
        Num::Every | Num::Same => true,
    }
}

fn may_be_alternative(asked: Num) -> bool
    ensures { result ≡ is_open_or (is_natural_with is_alternative) asked }
{
    match asked {
        Num::Exact(k) => 1 <= k && k <= 32,
        Num::Every | Num::Same => true,
    }
}

fn may_be_entry(numbers: &Numbers, asked: Num) -> bool
    ensures { result ≡ is_open_or (is_natural_with (is_entry numbers.now)) asked }
{
    match asked {
        Num::Exact(e) => is_entry(numbers, e),
        Num::Every | Num::Same => true,
    }
}

fn may_be_index(numbers: &Numbers, entry: Num, asked: Num) -> bool
    ensures { result ≡ is_open_or (is_index_of numbers.now entry) asked }
{
    match asked {
        Num::Exact(i) => is_index_of(numbers, entry, i),
        Num::Every | Num::Same => true,
    }
}

// Whether the number is an index of the entry, where that is exact.
fn is_index_of(numbers: &Numbers, entry: Num, i: i64) -> bool
    ensures { result ≡ is_index_of numbers.now entry i }
{
    match entry {
        Num::Exact(e) => is_member(numbers, e, i),
        Num::Every | Num::Same => is_index(i),
    }
}

fn is_task(numbers: &Numbers, t: i64) -> bool
    ensures { result ≡ is_natural_with (is_task numbers.now) t }
{
    0 <= t && (t as u64) < numbers.tasks.len() as u64
}

fn is_entry(numbers: &Numbers, e: i64) -> bool
    ensures { result ≡ is_natural_with (is_entry numbers.now) e }
{
    1 <= e && e as u64 <= numbers.entries.len() as u64
}

fn is_member(numbers: &Numbers, e: i64, i: i64) -> bool
    ensures { result ≡ is_natural_with (λ n. is_known_member numbers.now n i) e }
{
    match entry_at(numbers, e) {
        Some(info) => fits_entry(i, info),
        None => false,
    }
}

// The entry of this number, from 1.
fn entry_at(numbers: &Numbers, e: i64) -> Option<&EntryInfo>
    ensures { option_copied result ≡ entry_of numbers.now e }
{
    if e < 1 {
        return None;
    }
    numbers.entries.get(e as usize - 1)
}

fn fits_entry(i: i64, info: &EntryInfo) -> bool
    ensures { result ≡ fits_entry i info.now }
{
    if !is_index(i) {
        return false;
    }
    if info.family {
        i64::from(info.first) <= i && i <= i64::from(info.last)
    } else {
        0 <= i && i <= 0
    }
}

fn is_index(i: i64) -> bool
    ensures { result ≡ is_index i }
{
    -2147483648 <= i && i <= 2147483647
}
