// Migrating a file: the text in the other format of the sequence for which it stands.

ghost use Rattle.std.specs.Prelude.{◌≡◌, ◌<◌, ◌+◌, ◌-◌, ◌^◌, length, map, true, IsTrue, ◌↔◌};
ghost use Rattle.syn_event.specs.DeclaredTasks.{text_of};
ghost use Rattle.seq_file.specs.Files.{AreFit, SeqText};
ghost use Rattle.seq_file.specs.Lines.{is_upper_name};
ghost use Rattle.seq_file.specs.Lists.{listed, most_listed, list_count};
ghost use Rattle.debug_outcome.specs.Coming.{Comes, Never, stop_by};
ghost use Rattle.debug_outcome.specs.Outcomes.{writes};
ghost use Rattle.debug_sequence.specs.MigrateOutcomes.{AreSplit, Migrates};
ghost use Rattle.debug_sequence.specs.inner.Failing.{IsOfSplitting, refusal_of_split};

use crate::gathering::{Text, text_of_events, text_of_lists};
use crate::reading::read_sequence;
use ada_tree::Names;
use debug_outcome::{Listed, Refusal, SequenceFault, Stop};
use ded_io::Sink;
use seq_file::is_in_lists;
use std::alloc::Global;
use syn_event::{Event, Numbers};
use syn_order::{OrderError, split};

// The limit of event lines in a file by tasks.
const MOST_LISTED: usize = 700000;

// The status of a file that is migrated.
const MIGRATED: u8 = 0;

/// Writes the sequence for which a file stands in the other format: a file of one list by tasks, and a file by tasks as one list, in order.
///
/// The bytes are for the program of these names and numbers, whose tasks are all the original's. Bytes that stand for no sequence are refused as the
/// reader of sequences refuses them. Events of one list of which one is not admitted by those before it are refused at its line, and lists with more
/// event lines than a file may have are refused by that limit. The whole text is gathered and written at once, so that want of memory comes before it. It takes time in step with the lines of both files, and with the tasks of the program for each event at most.
pub fn migrate<'w, K: Sink>(
    alloc: Global,
    names: &Names,
    numbers: &Numbers,
    bytes: &[u8],
    out: &mut K,
) -> Result<u8, Stop<'w>>
    requires length { length bytes.now < 2 ^ 32 - 1 }
    requires name { is_upper_name (text_of names.now numbers.now.main) ≡ true }
    requires tasks { length numbers.now.tasks ≡ list_count numbers.now }
    ensures { Comes (Migrates names.now numbers.now bytes.now) Never (K.told out.old) (K.told out.new) (K.faults out.old) (K.faults out.new) result }
{
    let events = match read_sequence(alloc, bytes, numbers, names) {
        Ok(events) => events,
        Err(stop) => return Err(stop),
    };
    if is_in_lists(bytes) {
        put_joined(alloc, &events, names, numbers, out)
    } else {
        put_split(alloc, &events, names, numbers, out)
    }
}

// Writes the events as one list.
fn put_joined<'w, K: Sink>(
    alloc: Global,
    events: &[Event],
    names: &Names,
    numbers: &Numbers,
    out: &mut K,
) -> Result<u8, Stop<'w>>
    ensures { Comes (λ o. o ≡ writes (SeqText names.now numbers.now events.now) 0) Never (K.told out.old) (K.told out.new) (K.faults out.old) (K.faults out.new) result }
{
    match text_of_events(alloc, events, numbers, names) {
        Ok(text) => put_text(&text, out),
        Err(_) => Err(Stop::Memory),
    }
}

// Writes the events by tasks, where they have lists, and no more than a file may have.
fn put_split<'w, K: Sink>(
    alloc: Global,
    events: &[Event],
    names: &Names,
    numbers: &Numbers,
    out: &mut K,
) -> Result<u8, Stop<'w>>
    requires fit { AreFit numbers.now events.now }
    requires tasks { length numbers.now.tasks ≡ list_count numbers.now }
    ensures { Comes (AreSplit names.now numbers.now events.now) Never (K.told out.old) (K.told out.new) (K.faults out.old) (K.faults out.new) result }
{
    let lists = match split(alloc, events, numbers) {
        Ok(lists) => lists,
        Err(error) => return Err(split_failure(error)),
    };
    if are_too_many(&lists.lists) {
        return Err(Stop::Refused(Refusal::TooMany {
            what: Listed::Events,
            limit: MOST_LISTED as u32,
        }));
    }
    match text_of_lists(alloc, &lists, numbers, names) {
        Ok(text) => put_text(&text, out),
        Err(_) => Err(Stop::Memory),
    }
}

// Writes a text at once.
fn put_text<'w, K: Sink>(text: &Text, out: &mut K) -> Result<u8, Stop<'w>>
    ensures { Comes (λ o. o ≡ writes text.now.bytes 0) Never (K.told out.old) (K.told out.new) (K.faults out.old) (K.faults out.new) result }
{
    match out.put(text.bytes()) {
        Ok(()) => Ok(MIGRATED),
        Err(_) => Err(Stop::OutputFailed),
    }
}

// Whether the lists have more events than a file may have.
fn are_too_many(lists: &[Vec<Event>]) -> bool
    ensures { IsTrue result ↔ (most_listed < listed (map (λ v. v.items) lists.now)) }
{
    let mut room = MOST_LISTED;
    for list in lists {
        if list.len() > room {
            return true;
        }
        room -= list.len();
    }
    false
}

// Why a command stops where events are not split.
fn split_failure<'w>(error: OrderError) -> Stop<'w>
    requires { IsOfSplitting error }
    ensures { result ≡ stop_by (refusal_of_split error) }
{
    match error {
        OrderError::NotAdmitted { at } => Stop::Refused(Refusal::BadSequence {
            fault: SequenceFault::BadOrder,
            line: at + 1,
        }),
        OrderError::NoOrder { .. } => unreachable!(),
        OrderError::Memory => Stop::Memory,
    }
}
