// Reading a sequence file by tasks.

ghost use Rattle.std.specs.Prelude.{◌≡◌, ◌≢◌, ◌<◌, ◌≤◌, ◌+◌, ◌-◌, ◌^◌, ◌++◌, [], ◌∷◌, ℕ, OnOk, List, length, map, IfOk, IfErr, MatchOption, MatchResult, true, false, Option, Some, option_map, nat_lt, ◌&&◌, ◌==◌, not, if◌then◌else◌};
ghost use Rattle.event_machine.specs.declared.Event.{Event};
ghost use Rattle.syn_event.specs.DeclaredTasks.{text_of};
ghost use Rattle.syn_event.specs.Numbering.{Numbering};
ghost use Rattle.seq_file.specs.text_lines.Capped.{capped};
ghost use Rattle.seq_file.specs.declared.errors.SeqError.{SeqError};
ghost use Rattle.seq_file.specs.declared.errors.SeqError.TheVariants.{Memory, BadLine, AfterEnd};
ghost use Rattle.seq_file.specs.Lines.{is_upper_name};
ghost use Rattle.seq_file.specs.Files.{SeqReads};
ghost use Rattle.seq_file.specs.Lists.{ListReads, HasFirstListFault, is_in_lists, list_count, list_header_fault, writes_number, asked_by_line, begins_list, most_listed, next_event_fault};
ghost use Rattle.seq_file.specs.Short.{IsShort};
ghost use Rattle.seq_file.specs.inner.NextLists.{IsBehindListHeader, IsListHead, IsBehindEvent, IsNextListed, IsNextList, FailsAtList};

use super::errors::SeqError;
use super::line_words::{Words, is_text, split_words};
use super::lines::{header_fault, is_number, original_tasks, program_of};
use super::reading::{add, is_end, line_event};
use super::task_lists::TaskLists;
use crate::text_lines::{cut_at, natural};
use ada_tree::Names;
use std::alloc::Global;
use syn_event::{Event, Numbers};

const MOST_LISTED: usize = 700000;

/// Whether the bytes begin as a sequence file by tasks does. Other bytes should be read as a sequence file of one list.
pub fn is_in_lists(bytes: &[u8]) -> bool
    ensures is { result ≡ is_in_lists bytes.now }
    ensures lists { (numbers : Numbering) (names : List (List ℕ)) (lists : List (List Event)) → ListReads bytes.now numbers names lists → result ≡ true }
    ensures one_list { (numbers : Numbering) (names : List (List ℕ)) (events : List Event) → SeqReads bytes.now numbers names events → result ≡ false }
{
    bytes.starts_with(b"ded-seq 2 ")
}

// Where a file by tasks is read: what is left of it, the number of its next line, how many events all lists have, and whether
// the last of the list that is read, or was read last, is `Z`.
#[derive(Clone, Copy)]
struct Place<'a> {
    rest: &'a [u8],
    line: u32,
    events: usize,
    ended: bool,
}

/// The events that touch each task, by a sequence file by tasks.
///
/// `names` are those of the program whose numbers these are, so that main's name is an identifier in upper case. There is one list for main
/// and for each other task of the original. Whether an event touches a task is not tested.
/// `Ok` comes exactly where the bytes are a file of some lists. Otherwise the error is the file's first fault.
/// `Memory` alone may stand for either answer. The lists take memory, and nothing else does.
pub fn read_lists(
    alloc: Global,
    bytes: &[u8],
    numbers: &Numbers,
    names: &Names,
) -> Result<TaskLists, SeqError>
    requires length { length bytes.now < 2 ^ 32 - 1 }
    requires name { is_upper_name (text_of names.now numbers.now.main) ≡ true }
    ensures reads { IfOk result (λ found. ListReads bytes.now numbers.now names.now found) }
    ensures first_fault { IfErr result (λ error. error ≢ Memory → HasFirstListFault bytes.now numbers.now names.now error) }
    ensures only_lists { (wanted : List (List Event)) → ListReads bytes.now numbers.now names.now wanted
        → MatchResult result (λ found. found ≡ wanted) (λ error. error ≡ Memory) }
    ensures only_fault { (fault : SeqError) → HasFirstListFault bytes.now numbers.now names.now fault
        → MatchResult result (λ found. ⊥) (λ error. error ≢ Memory → error ≡ fault) }
{
    let rest = match behind_list_header(bytes, numbers, names) {
        Ok(rest) => rest,
        Err(error) => return Err(error),
    };
    let count = list_count(numbers);
    let mut place = Place {
        rest,
        line: 2,
        events: 0,
        ended: false,
    };
    let mut lists = Vec::new(alloc);
    for task in 0..count {
        let (events, behind) = match read_list(alloc, &place, numbers, task) {
            Ok(next) => next,
            Err(error) => return Err(error),
        };
        add_list(&mut lists, events)?;
        place = behind;
    }
    if place.rest.is_empty() {
        Ok(TaskLists { lists })
    } else {
        Err(SeqError::AfterEnd { line: place.line })
    }
}

fn add_list(lists: &mut Vec<Vec<Event>>, events: Vec<Event>) -> Result<(), SeqError>
    ensures added { OnOk result (map (λ v. v.items) lists.new.items ≡ map (λ v. v.items) lists.old.items ++ events.items ∷ []) }
    ensures memory { IfErr result (λ error. error ≡ Memory) }
{
    match lists.push(events) {
        Ok(()) => Ok(()),
        Err(_) => Err(SeqError::Memory),
    }
}

// What stands behind the header.
fn behind_list_header<'a>(
    bytes: &'a [u8],
    numbers: &Numbers,
    names: &Names,
) -> Result<&'a [u8], SeqError>
    ensures read { IfOk result (λ behind. IsBehindListHeader names.now numbers.now bytes.now behind.now) }
    ensures fault { IfErr result (λ error. list_header_fault names.now numbers.now bytes.now ≡ Some error) }
    ensures short { IsShort numbers.now }
{
    let program = program_of(numbers, names);
    let Some((line, behind)) = cut_at(bytes, b'\n') else {
        return Err(SeqError::BadLine { line: 1 });
    };
    match header_fault(line, b"2", &program) {
        Some(error) => Err(error),
        None => Ok(behind),
    }
}

// How many lists the program has: one for main and one for each other task of the original.
fn list_count(numbers: &Numbers) -> u64
    ensures is { result ≡ list_count numbers.now }
    ensures small { result ≤ 2 ^ 32 }
{
    original_tasks(&numbers.tasks) + 1
}

// The list of a task, where it should begin, and the place behind it.
fn read_list<'a>(
    alloc: Global,
    place: &Place<'a>,
    numbers: &Numbers,
    task: u64,
) -> Result<(Vec<Event>, Place<'a>), SeqError>
    requires room { place.now.line + length place.now.rest.now < 2 ^ 32 }
    requires few { place.now.events ≤ most_listed }
    requires task { task < list_count numbers.now }
    requires small { list_count numbers.now ≤ 2 ^ 32 }
    requires short { IsShort numbers.now }
    ensures read { IfOk result (λ x. IsNextList numbers.now task place.now x.0.items x.1) }
    ensures fault { IfErr result (λ error. error ≢ Memory → FailsAtList numbers.now task place.now error) }
{
    let Some((asked, rest)) = list_head(place.rest, task) else {
        return Err(list_error(place));
    };
    let mut at = Place {
        rest,
        line: place.line + 1,
        events: place.events,
        ended: false,
    };
    let mut events = Vec::new(alloc);
    let mut left = asked;
    while left > 0 {
        let (event, behind) = match next_listed(&at, numbers, task) {
            Ok(next) => next,
            Err(error) => return Err(error),
        };
        add(&mut events, event)?;
        at = behind;
        left -= 1;
    }
    Ok((events, at))
}

// The fault of another line than that of the next list.
fn list_error(place: &Place) -> SeqError
    ensures { result ≡ (if place.now.ended && not (length place.now.rest.now == 0) then AfterEnd place.now.line else BadLine place.now.line) }
{
    if place.ended && !place.rest.is_empty() {
        SeqError::AfterEnd { line: place.line }
    } else {
        SeqError::BadLine { line: place.line }
    }
}

// How many event lines the next line asks for, up to the cap, where it begins the list of this task, and what stands behind that line.
fn list_head<'a>(rest: &'a [u8], task: u64) -> Option<(u64, &'a [u8])>
    requires { task < 2 ^ 32 }
    ensures { MatchOption result (begins_list task rest.now ≡ false) (λ x. IsListHead task rest.now x.0 x.1.now) }
{
    let (line, behind) = cut_at(rest, b'\n')?;
    match asked_by(line, task) {
        Some(asked) => Some((asked, behind)),
        None => None,
    }
}

fn asked_by(line: &[u8], task: u64) -> Option<u64>
    requires { task < 2 ^ 32 }
    ensures { result ≡ option_map capped (asked_by_line task line.now) }
{
    match split_words(line) {
        Words::Three(word, number, count) => {
            if is_text(word, b"task") && writes_number(number, task) {
                natural(count)
            } else {
                None
            }
        }
        _ => None,
    }
}

// Whether the word writes this number.
fn writes_number(word: &[u8], n: u64) -> bool
    requires { n < 2 ^ 32 }
    ensures { result ≡ writes_number n word.now }
{
    match natural(word) {
        Some(m) => is_number(m, n),
        None => false,
    }
}

// The next event of the list of a task, where its line asks for one more, and the place behind it.
fn next_listed<'a>(
    place: &Place<'a>,
    numbers: &Numbers,
    task: u64,
) -> Result<(Event, Place<'a>), SeqError>
    requires room { place.now.line + length place.now.rest.now < 2 ^ 32 }
    requires few { place.now.events ≤ most_listed }
    requires task { task < 2 ^ 32 }
    ensures read { IfOk result (λ x. IsNextListed numbers.now place.now x.0 x.1) }
    ensures fault { IfErr result (λ error. next_event_fault numbers.now task place.now.ended place.now.events place.now.line place.now.rest.now ≡ Some error) }
{
    if place.rest.is_empty() {
        return Err(SeqError::BadLine { line: place.line });
    }
    if place.ended {
        return Err(behind_end(place, numbers, task));
    }
    if place.events >= MOST_LISTED {
        return Err(SeqError::TooMany {
            limit: MOST_LISTED as u32,
        });
    }
    match line_event(place.rest, numbers, place.line) {
        Ok((event, rest)) => Ok((event, behind_event(place, &event, rest))),
        Err(error) => Err(error),
    }
}

// The place behind an event's line, with this rest.
fn behind_event<'a>(place: &Place, event: &Event, rest: &'a [u8]) -> Place<'a>
    requires line { place.now.line < 2 ^ 32 - 1 }
    requires few { place.now.events < most_listed }
    ensures { IsBehindEvent place.now event.now rest.now result }
{
    Place {
        rest,
        line: place.line + 1,
        events: place.events + 1,
        ended: is_end(event),
    }
}

// The fault of a line behind `Z` where the list of a task should have more events.
fn behind_end(place: &Place, numbers: &Numbers, task: u64) -> SeqError
    requires { task < 2 ^ 32 }
    ensures { result ≡ (if nat_lt (task + 1) (list_count numbers.now) && begins_list (task + 1) place.now.rest.now then BadLine place.now.line else AfterEnd place.now.line) }
{
    if task + 1 < list_count(numbers) && list_head(place.rest, task + 1).is_some() {
        SeqError::BadLine { line: place.line }
    } else {
        SeqError::AfterEnd { line: place.line }
    }
}
