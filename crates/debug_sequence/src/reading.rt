// Reading the sequence for which a file stands, in either format.

ghost use Rattle.std.specs.Prelude.{◌≡◌, ◌<◌, ◌-◌, ◌^◌, length, true, IfOk, IfErr};
ghost use Rattle.syn_event.specs.DeclaredTasks.{text_of};
ghost use Rattle.seq_file.specs.Files.{AreFit, SeqReads};
ghost use Rattle.seq_file.specs.Lines.{is_upper_name};
ghost use Rattle.seq_file.specs.Lists.{list_count};
ghost use Rattle.debug_outcome.specs.Coming.{Stops, stop_by};
ghost use Rattle.debug_outcome.specs.sequences.BadSequences.{IsBadSequence};
ghost use Rattle.debug_sequence.specs.Sequences.{AreNotJoined, AreRefusedLists, IsRefusedSequence, ReadsAs, ReadsAsLists};
ghost use Rattle.debug_sequence.specs.inner.Failing.{IsOfJoining, refusal_of_join};
ghost use Rattle.debug_sequence.specs.inner.Joining.{IsShortOrder};

use ada_tree::Names;
use debug_outcome::sequences::sequence_failure;
use debug_outcome::{Listed, Refusal, Stop};
use seq_file::{TaskLists, is_in_lists, read_lists, read_seq};
use std::alloc::Global;
use syn_event::{Event, Numbers};
use syn_order::{OrderError, join};

// The limit of events in a file of one list.
const MOST_EVENTS: usize = 200000;

/// The events of the sequence for which a file stands: those of a file of one list, or the order of the lists of a file by tasks.
///
/// `names` are those of the program whose numbers these are, so that main's name is an identifier in upper case; its tasks are all the original's.
/// `Ok` comes exactly where the bytes are a file of some events, in the format that they begin with. Otherwise the stop is the refusal of the file's
/// first fault; of lists that have no order, which tells the first task whose list is not used up; or of too many events. Want of memory alone
/// may stand for either answer. The events may stand in a file of one list (`fit`).
pub fn read_sequence<'w>(
    alloc: Global,
    bytes: &[u8],
    numbers: &Numbers,
    names: &Names,
) -> Result<Vec<Event>, Stop<'w>>
    requires length { length bytes.now < 2 ^ 32 - 1 }
    requires name { is_upper_name (text_of names.now numbers.now.main) ≡ true }
    requires tasks { length numbers.now.tasks ≡ list_count numbers.now }
    ensures reads { IfOk result (λ events. ReadsAs bytes.now numbers.now names.now events.items) }
    ensures fit { IfOk result (λ events. AreFit numbers.now events.items) }
    ensures refused { IfErr result (Stops (IsRefusedSequence names.now numbers.now bytes.now)) }
{
    if is_in_lists(bytes) {
        read_joined(alloc, bytes, numbers, names)
    } else {
        read_events(alloc, bytes, numbers, names)
    }
}

// The events of a file of one list.
fn read_events<'w>(
    alloc: Global,
    bytes: &[u8],
    numbers: &Numbers,
    names: &Names,
) -> Result<Vec<Event>, Stop<'w>>
    requires length { length bytes.now < 2 ^ 32 - 1 }
    requires name { is_upper_name (text_of names.now numbers.now.main) ≡ true }
    ensures reads { IfOk result (λ events. SeqReads bytes.now numbers.now names.now events.items) }
    ensures fit { IfOk result (λ events. AreFit numbers.now events.items) }
    ensures refused { IfErr result (Stops (IsBadSequence names.now numbers.now bytes.now)) }
{
    match read_seq(alloc, bytes, numbers, names) {
        Ok(events) => Ok(events),
        Err(error) => Err(sequence_failure(error)),
    }
}

// The events of a file by tasks, in the order of its lists.
fn read_joined<'w>(
    alloc: Global,
    bytes: &[u8],
    numbers: &Numbers,
    names: &Names,
) -> Result<Vec<Event>, Stop<'w>>
    requires length { length bytes.now < 2 ^ 32 - 1 }
    requires name { is_upper_name (text_of names.now numbers.now.main) ≡ true }
    requires tasks { length numbers.now.tasks ≡ list_count numbers.now }
    ensures reads { IfOk result (λ events. ReadsAsLists bytes.now numbers.now names.now events.items) }
    ensures fit { IfOk result (λ events. AreFit numbers.now events.items) }
    ensures refused { IfErr result (Stops (AreRefusedLists names.now numbers.now bytes.now)) }
{
    match read_lists(alloc, bytes, numbers, names) {
        Ok(lists) => join_few(alloc, &lists, numbers),
        Err(error) => Err(sequence_failure(error)),
    }
}

// The order of the lists, if it has no more events than a file of one list may have.
fn join_few<'w>(alloc: Global, lists: &TaskLists, numbers: &Numbers) -> Result<Vec<Event>, Stop<'w>>
    requires { length lists.now ≡ length numbers.now.tasks }
    ensures order { IfOk result (λ events. IsShortOrder numbers.now lists.now events.items) }
    ensures refused { IfErr result (Stops (AreNotJoined numbers.now lists.now)) }
{
    let events = match join(alloc, lists, numbers) {
        Ok(events) => events,
        Err(error) => return Err(join_failure(error)),
    };
    if events.len() <= MOST_EVENTS {
        Ok(events)
    } else {
        Err(Stop::Refused(Refusal::TooMany {
            what: Listed::Events,
            limit: MOST_EVENTS as u32,
        }))
    }
}

// Why a command stops where lists are not joined.
fn join_failure<'w>(error: OrderError) -> Stop<'w>
    requires { IsOfJoining error }
    ensures { result ≡ stop_by (refusal_of_join error) }
{
    match error {
        OrderError::NoOrder { task } => Stop::Refused(Refusal::NoOrder { task }),
        OrderError::NotAdmitted { .. } => unreachable!(),
        OrderError::Memory => Stop::Memory,
    }
}
