// The numbers that a program has.

ghost use Rattle.std.specs.Prelude.{◌≡◌, ◌<◌, ℤ, option_copied, length, ◌^◌, ◌&&◌, true};
ghost use Rattle.seq_file.specs.text_lines.Capped.{capped_integer};
ghost use Rattle.syn_event.specs.Numbering.{entry_at};
ghost use Rattle.seq_file.specs.Known.{is_task, is_task_beside_main, is_alternative, is_known_member, is_call, is_index, fits_entry};

use syn_event::{EntryInfo, Numbers};

fn is_task(numbers: &Numbers, t: u64) -> bool
    ensures is { result ≡ is_task numbers.now t }
    ensures within { length numbers.now.tasks < 2 ^ 32 }
{
    t < numbers.tasks.len() as u64
}

pub(crate) fn is_task_beside_main(numbers: &Numbers, t: u64) -> bool
    ensures is { result ≡ is_task_beside_main numbers.now t }
    ensures within { length numbers.now.tasks < 2 ^ 32 }
{
    is_task(numbers, t) && 0 < t
}

fn is_alternative(k: u64) -> bool
    ensures { result ≡ is_alternative k }
{
    1 <= k && k <= 32
}

pub(crate) fn is_wait(numbers: &Numbers, a: u64, k: u64) -> bool
    ensures is { result ≡ (is_task_beside_main numbers.now a && is_alternative k) }
    ensures within { length numbers.now.tasks < 2 ^ 32 }
{
    is_task_beside_main(numbers, a) && is_alternative(k)
}

pub(crate) fn is_abort(numbers: &Numbers, t: u64, x: u64) -> bool
    ensures is { result ≡ (is_task numbers.now t && is_task_beside_main numbers.now x) }
    ensures within { length numbers.now.tasks < 2 ^ 32 }
{
    is_task(numbers, t) && is_task_beside_main(numbers, x)
}

/// Whether the numbers are those of a call. It takes each index that is beyond 32 bits for the same.
pub(crate) fn is_call(numbers: &Numbers, c: u64, e: u64, i: i64) -> bool
    ensures is { (z : ℤ) → i ≡ capped_integer z → result ≡ is_call numbers.now c e z }
    ensures small { result ≡ true → is_index i ≡ true }
    ensures tasks { length numbers.now.tasks < 2 ^ 32 }
    ensures entries { length numbers.now.entries < 2 ^ 32 }
{
    let member = is_member(numbers, e, i);
    is_task(numbers, c) && member
}

fn is_member(numbers: &Numbers, e: u64, i: i64) -> bool
    ensures is { (z : ℤ) → i ≡ capped_integer z → result ≡ is_known_member numbers.now e z }
    ensures small { result ≡ true → is_index i ≡ true }
    ensures within { length numbers.now.entries < 2 ^ 32 }
{
    match entry_at(numbers, e) {
        Some(info) => fits_entry(i, info),
        None => false,
    }
}

// The entry of this number, from 1.
fn entry_at(numbers: &Numbers, e: u64) -> Option<&EntryInfo>
    ensures is { option_copied result ≡ entry_at numbers.now e }
    ensures within { length numbers.now.entries < 2 ^ 32 }
{
    let entries = numbers.entries.as_slice();
    if e == 0 {
        return None;
    }
    entries.get(e as usize - 1)
}

#[tactic(auto, using(crate::proofs::Indexing::indexing))]
fn fits_entry(i: i64, info: &EntryInfo) -> bool
    ensures is { result ≡ fits_entry i info.now }
    ensures small { result ≡ true → is_index i ≡ true }
{
    if !is_index(i) {
        return false;
    }
    if info.family {
        i64::from(info.first) <= i && i <= i64::from(info.last)
    } else {
        0 <= i && i <= 0
    }
}

fn is_index(i: i64) -> bool
    ensures { result ≡ is_index i }
{
    -2147483648 <= i && i <= 2147483647
}
