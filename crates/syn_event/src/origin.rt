// What an event of a rewritten text stands for in the original.

ghost use Rattle.std.specs.Prelude.{◌≡◌, count_by, take, length, ◌≤◌};
ghost use Rattle.syn_event.specs.Numbering.{is_original_entry};
ghost use Rattle.syn_event.specs.Origin.{back_of, original_call, original_entry};

use crate::{EntryInfo, Event, Numbers};

/// The event of the original that an event of this text stands for, if there is one. The event has the text's own numbers,
/// and what is given out has original ones (this project's rule).
pub fn back(raw: &Event, numbers: &Numbers) -> Option<Event>
    ensures { result ≡ back_of numbers.now raw.now }
{
    match *raw {
        Event::R { c, e, i } => match call_back(numbers, c, e) {
            Some(n) => Some(Event::R { c, e: n, i }),
            None => None,
        },
        Event::C { c, e, i } => match call_back(numbers, c, e) {
            Some(n) => Some(Event::C { c, e: n, i }),
            None => None,
        },
        Event::T { c, e, i } => match call_back(numbers, c, e) {
            Some(n) => Some(Event::T { c, e: n, i }),
            None => None,
        },
        Event::F { c, e, i } => match call_back(numbers, c, e) {
            Some(n) => Some(Event::F { c, e: n, i }),
            None => None,
        },
        Event::E { a } | Event::S { a } | Event::D { a, .. } | Event::X { a } => {
            if numbers.is_added_task(a) {
                None
            } else {
                Some(*raw)
            }
        }
        Event::B { t, x } => {
            if numbers.is_added_task(t) || numbers.is_added_task(x) {
                None
            } else {
                Some(*raw)
            }
        }
        Event::Z => Some(*raw),
    }
}

// The original number of the entry of a call, where caller and owner are original and it has one.
fn call_back(numbers: &Numbers, c: u32, e: u32) -> Option<u32>
    ensures { result ≡ original_call numbers.now c e }
{
    if numbers.is_added_task(c) || numbers.is_added_task(numbers.owner(e)) {
        None
    } else {
        entry_back(numbers, e)
    }
}

// The original number of an entry, where it has one.
fn entry_back(numbers: &Numbers, e: u32) -> Option<u32>
    ensures { result ≡ original_entry numbers.now e }
{
    match numbers.entry(e) {
        Some(info) => match info.stands_for {
            Some(n) => Some(n),
            None => {
                if info.added {
                    None
                } else {
                    Some(originals_upto(numbers, e))
                }
            }
        },
        None => None,
    }
}

// How many of the first `e` entries are the original's.
fn originals_upto(numbers: &Numbers, e: u32) -> u32
    ensures { result ≡ count_by is_original_entry (take e numbers.now.entries) }
{
    let entries = numbers.entries.as_slice();
    if e as usize <= entries.len() {
        originals(&entries[..e as usize], e)
    } else {
        originals(entries, e)
    }
}

// How many of at most `bound` entries are the original's.
fn originals(entries: &[EntryInfo], bound: u32) -> u32
    requires { length entries.now ≤ bound }
    ensures { result ≡ count_by is_original_entry entries.now }
{
    let mut count = 0u32;
    for info in entries {
        if !info.added {
            count += 1;
        }
    }
    count
}
